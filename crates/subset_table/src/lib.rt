// The subsets of the digits 1 to 7 in one table, as it is printed (crates/subsets) and as the arrangements of a line are listed from it.
#![tactic(auto)]

ghost use Rattle.std.specs.Prelude.{◌≡◌, ◌<◌};
ghost use Rattle.subset_table.specs.Subsets.{subset, of_size, from_sum};

use grid_size::GridSize;

// A subset: its mask (digit d is bit d), the sum of its digits, and how many they are.
#[derive(Clone, Copy)]
pub struct Subset {
    pub mask: u8,
    pub sum: u8,
    pub size: u8,
}

// Entries as they are printed: mask, sum, size.
macro_rules! entries {
    ($($mask:literal $sum:literal $size:literal,)*) => {
        [$(Subset { mask: $mask, sum: $sum, size: $size }),*]
    };
}

// By sum, then by size, then by mask; the subsets of one sum are a line. A static, as a constant of structs is made anew in each function that reads it.
pub static SUBSETS: [Subset; 128] = entries![
    0 0 0,
    2 1 1,
    4 2 1,
    8 3 1, 6 3 2,
    16 4 1, 10 4 2,
    32 5 1, 12 5 2, 18 5 2,
    64 6 1, 20 6 2, 34 6 2, 14 6 3,
    128 7 1, 24 7 2, 36 7 2, 66 7 2, 22 7 3,
    40 8 2, 68 8 2, 130 8 2, 26 8 3, 38 8 3,
    48 9 2, 72 9 2, 132 9 2, 28 9 3, 42 9 3, 70 9 3,
    80 10 2, 136 10 2, 44 10 3, 50 10 3, 74 10 3, 134 10 3, 30 10 4,
    96 11 2, 144 11 2, 52 11 3, 76 11 3, 82 11 3, 138 11 3, 46 11 4,
    160 12 2, 56 12 3, 84 12 3, 98 12 3, 140 12 3, 146 12 3, 54 12 4, 78 12 4,
    192 13 2, 88 13 3, 100 13 3, 148 13 3, 162 13 3, 58 13 4, 86 13 4, 142 13 4,
    104 14 3, 152 14 3, 164 14 3, 194 14 3, 60 14 4, 90 14 4, 102 14 4, 150 14 4,
    112 15 3, 168 15 3, 196 15 3, 92 15 4, 106 15 4, 154 15 4, 166 15 4, 62 15 5,
    176 16 3, 200 16 3, 108 16 4, 114 16 4, 156 16 4, 170 16 4, 198 16 4, 94 16 5,
    208 17 3, 116 17 4, 172 17 4, 178 17 4, 202 17 4, 110 17 5, 158 17 5,
    224 18 3, 120 18 4, 180 18 4, 204 18 4, 210 18 4, 118 18 5, 174 18 5,
    184 19 4, 212 19 4, 226 19 4, 122 19 5, 182 19 5, 206 19 5,
    216 20 4, 228 20 4, 124 20 5, 186 20 5, 214 20 5,
    232 21 4, 188 21 5, 218 21 5, 230 21 5, 126 21 6,
    240 22 4, 220 22 5, 234 22 5, 190 22 6,
    236 23 5, 242 23 5, 222 23 6,
    244 24 5, 238 24 6,
    248 25 5, 246 25 6,
    250 26 6,
    252 27 6,
    254 28 7,
];

// Where the subsets of each sum from 0 to 28 begin, and where the last ends.
const FROM_SUM: [u8; 30] = [
    0, 1, 2, 3, 5, 7, 10, 14, 19, 24, 30, 37, 44, 52, 60, 68, 76, 84, 91, 98, 104, 109, 114, 118,
    121, 123, 125, 126, 127, 128,
];

impl Subset {
    // Subset s of the table.
    #[tactic(auto, unfolding(crate::specs::Subsets::subset))]
    pub fn numbered(s: usize) -> Subset
        requires { s < 128 }
        ensures { result ≡ subset s }
    {
        SUBSETS[s]
    }

    // All of its digits are of a size.
    pub fn is_of_size(self, size: GridSize) -> bool
        ensures { result ≡ of_size size.n self }
    {
        u16::from(self.mask) < 1u16 << (size.n - 1)
    }
}

// Where the subsets of sum k begin; after the last sum, where they end.
pub fn from_sum(k: usize) -> usize
    requires { k < 30 }
    ensures { result ≡ from_sum k }
{
    usize::from(FROM_SUM[k])
}
