// The course sheets A to E of document 01 as constant tables.
// They stay five functions: each promises its own definition, and the table of the keys (specs/Questions) cites those.
#![tactic(auto)]

ghost use Rattle.std.specs.Prelude.{◌≡◌};
ghost use Rattle.course.specs.Sheets.{sheet_a, sheet_b, sheet_c, sheet_d, sheet_e};

// Any 0 first; after the first 1, each 1 comes at least 5 ticks after the one before it.
const SHEET_A: [u8; 42] = [
    2, 1, 2, 0, 3, 0, 14, 0, 14, 0, 28, 0, 14, 0, 0, 0, 0, 0, 255, 0, 255, 1, 1, 1, 0, 255, 0, 255,
    0, 1, 0, 0, 255, 0, 255, 1, 1, 1, 5, 255, 0, 255,
];

pub fn sheet_a() -> [u8; 42]
    ensures { result ≡ sheet_a }
{
    SHEET_A
}

// Command 0, then command 1 from 10 to 15 ticks after it.
const SHEET_B: [u8; 32] = [
    3, 1, 2, 0, 4, 0, 18, 0, 7, 0, 25, 0, 7, 0, 32, 0, 0, 0, 0, 1, 1, 0, 255, 0, 255, 1, 2, 0, 10,
    15, 0, 255,
];

pub fn sheet_b() -> [u8; 32]
    ensures { result ≡ sheet_b }
{
    SHEET_B
}

// Command 0 up to date 8, then command 1 up to date 20.
const SHEET_C: [u8; 32] = [
    3, 1, 2, 0, 4, 0, 18, 0, 7, 0, 25, 0, 7, 0, 32, 0, 0, 0, 0, 1, 0, 0, 8, 0, 255, 1, 2, 0, 0, 20,
    0, 255,
];

pub fn sheet_c() -> [u8; 32]
    ensures { result ≡ sheet_c }
{
    SHEET_C
}

// Command 0, then command 1 from date 10 on.
const SHEET_D: [u8; 32] = [
    3, 1, 2, 0, 4, 0, 18, 0, 7, 0, 25, 0, 7, 0, 32, 0, 0, 0, 0, 1, 0, 0, 255, 0, 255, 1, 2, 0, 10,
    255, 0, 255,
];

pub fn sheet_d() -> [u8; 32]
    ensures { result ≡ sheet_d }
{
    SHEET_D
}

// Any number of commands 0, then command 1.
const SHEET_E: [u8; 28] = [
    2, 1, 2, 0, 2, 0, 14, 0, 14, 0, 28, 0, 0, 0, 0, 0, 0, 0, 255, 0, 255, 1, 1, 0, 0, 255, 0, 255,
];

pub fn sheet_e() -> [u8; 28]
    ensures { result ≡ sheet_e }
{
    SHEET_E
}
