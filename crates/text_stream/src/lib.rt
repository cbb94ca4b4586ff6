// The lines of a stream of bytes, block by block, and the texts that answer them.
// Of a line that is not ended yet its first 81 bytes are kept: a longer line is refused for its length alone.
#![tactic(auto)]

ghost use Rattle.std.specs.Prelude.{◌≡◌, ◌+◌, ◌-◌, ◌*◌, ◌≤◌, ◌==◌, ◌++◌, length, take, position};
ghost use Rattle.arrayvec.specs.ArrayVec.{array_vec_len};
ghost use Rattle.text_stream.specs.Fed.{LineEnded, LineClosed};
ghost use Rattle.text_stream.specs.Put.{Put};

use arrayvec::ArrayVec;
use text_line::answer_line;

// What is kept of the line that is not ended yet.
#[derive(Clone, Copy)]
pub struct Stream {
    pub kept: [u8; 81],
    pub len: usize,
    pub ghost within: { len ≤ 81 },
}

// The stream behind a block, and how many bytes are to be written for the block.
#[derive(Clone, Copy)]
pub struct Fed {
    pub stream: Stream,
    pub written: usize,
}

// Where the first line end stands.
fn line_end(bytes: &[u8]) -> Option<usize>
    ensures { result ≡ position (λ b. b == 10) bytes.now }
{
    bytes.iter().position(|b| *b == b'\n')
}

// Appends the text that answers a line, and a line end.
fn end_line<const N: usize>(line: &[u8], out: &mut ArrayVec<u8, N>)
    requires { array_vec_len out.old + 101 ≤ N }
    ensures { LineEnded line.now out.old.items out.new.items }
{
    answer_line(line, out).unwrap();
    out.push(b'\n');
}

// Puts a text at the front of the buffer, and counts its bytes.
fn put_front(text: &[u8], out: &mut [u8]) -> usize
    requires { length text.now ≤ length out.old }
    ensures { Put text.now result out.old out.new }
{
    out[..text.len()].copy_from_slice(text);
    text.len()
}

impl Stream {
    ghost use Rattle.text_stream.specs.Stream.{kept_bytes, Begun, BlockFed, BlockPut, LastGiven, LastPut};

    // Before any input.
    pub fn new() -> Stream
        ensures { Begun result }
    {
        Stream {
            kept: [0; 81],
            len: 0,
        }
    }

    // Keeps the next bytes of the line, as far as there is room.
    fn keep(&mut self, bytes: &[u8])
        ensures { kept_bytes self.new ≡ kept_bytes self.old ++ take (81 - length (kept_bytes self.old)) bytes.now }
    {
        let room = bytes.len().min(81 - self.len);
        self.len += put_front(&bytes[..room], &mut self.kept[self.len..]);
    }

    // The line ends behind these bytes: the text that answers it is appended, with a line end, and nothing is kept.
    fn close_line<const N: usize>(&mut self, bytes: &[u8], out: &mut ArrayVec<u8, N>)
        requires { array_vec_len out.old + 101 ≤ N }
        ensures text { LineClosed (kept_bytes self.old) bytes.now out.old.items out.new.items }
        ensures empty { self.new.len ≡ 0 }
    {
        if self.len > 0 {
            self.keep(bytes);
            end_line(&self.kept[..self.len], out);
            self.len = 0;
        } else {
            // It lies in the block as a whole, and is answered where it stands.
            end_line(bytes, out);
        }
    }

    // Takes a block of the input; the texts that answer the lines ended in it, each with a line end, are appended to the buffer.
    pub fn append_answers<const N: usize>(&mut self, block: &[u8], out: &mut ArrayVec<u8, N>)
        requires { array_vec_len out.old + 101 * length block.now ≤ N }
        ensures { BlockFed self.old self.new block.now out.old.items out.new.items }
    {
        let mut rest = block;
        // From line end to line end: with a step for each byte a refused line took twice the time.
        while let Some(end) = line_end(rest) {
            self.close_line(&rest[..end], out);
            rest = &rest[end + 1..];
        }
        self.keep(rest);
    }

    // The same into any buffer: the texts stand at its front.
    pub fn feed(self, block: &[u8], out: &mut [u8]) -> Fed
        requires { 101 * length block.now ≤ length out.old }
        ensures { BlockPut self block.now out.old result out.new }
    {
        let mut stream = self;
        let mut ahead = block;
        let mut written = 0;
        while let Some(end) = line_end(ahead) {
            let mut text = ArrayVec::<u8, 101>::new();
            stream.close_line(&ahead[..end], &mut text);
            written += put_front(&text, &mut out[written..]);
            ahead = &ahead[end + 1..];
        }
        stream.keep(ahead);
        Fed { stream, written }
    }

    // The input has ended: the text that answers the line it leaves without a line end, if that is not empty, is appended.
    pub fn append_last<const N: usize>(&self, out: &mut ArrayVec<u8, N>)
        requires { array_vec_len out.old + 101 ≤ N }
        ensures { LastGiven self.now out.old.items out.new.items }
    {
        if self.len == 0 {
            return;
        }
        end_line(&self.kept[..self.len], out);
    }

    // The same into any buffer: the text stands at its front.
    pub fn end(self, out: &mut [u8]) -> usize
        requires { 101 ≤ length out.old }
        ensures { LastPut self result out.old out.new }
    {
        let mut text = ArrayVec::<u8, 101>::new();
        self.append_last(&mut text);
        put_front(&text, out)
    }
}
