// Prints the subsets of the digits 1 to 7, as the papers' appendix has them (docs/INTERFACE.md, "The program `subsets`"): a line for each, with its mask,
// its sum and its size.
#![tactic(auto)]

ghost use Rattle.std.specs.Prelude.{◌≡◌, ◌+◌, ◌≤◌, ◌++◌, OnOk, OnErr};
ghost use Rattle.std.specs.Io.KnownBytes.{Appends};
ghost use Rattle.arrayvec.specs.ArrayVec.{array_vec_len};
ghost use Rattle.output.specs.Output.{StartsOut};
ghost use Rattle.subsets.specs.Text.{subset_line, printed_text};

use arrayvec::ArrayVec;
use output::{Message, write_out};
use std::io;
use std::io::Write;
use std::process::ExitCode;
use subset_table::{SUBSETS, Subset};
use text_buffer::write_number;

// The line of a subset: at most three numbers of three digits, and a byte behind each.
fn write_subset<const N: usize>(subset: Subset, out: &mut ArrayVec<u8, N>)
    requires { array_vec_len out.old + 12 ≤ N }
    ensures text { out.new.items ≡ out.old.items ++ subset_line subset }
    ensures short { array_vec_len out.new ≤ array_vec_len out.old + 12 }
{
    write_number(subset.mask, out);
    out.push(b' ');
    write_number(subset.sum, out);
    out.push(b' ');
    write_number(subset.size, out);
    out.push(b'\n');
}

// The lines of all of them.
fn write_subsets<const N: usize>(out: &mut ArrayVec<u8, N>)
    requires { array_vec_len out.old + 1536 ≤ N }
    ensures { out.new.items ≡ out.old.items ++ printed_text }
{
    for subset in &SUBSETS {
        write_subset(*subset, out);
    }
}

// Writes the list. Where the writer fails, what is written is a beginning of it.
pub fn print_subsets<W: Write>(writer: &mut W) -> io::Result<()>
    ensures all { OnOk result (Appends (W.contents writer.old) (W.contents writer.new) printed_text) }
    ensures part { OnErr result (StartsOut (W.contents writer.old) (W.contents writer.new) printed_text) }
{
    let mut out = ArrayVec::<u8, 1536>::new();
    write_subsets(&mut out);
    write_out(writer, &out)
}

fn main(rt: HostRuntime) -> ExitCode {
    match print_subsets(&mut rt.stdout()) {
        Ok(()) => ExitCode::SUCCESS,
        Err(error) => {
            // Where this write fails too, nothing is left to tell it by.
            let _ = rt.eprintln(Message {
                what: "subsets: cannot write to standard output: ",
                error,
            });
            ExitCode::FAILURE
        }
    }
}
