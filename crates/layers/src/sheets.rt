// The load check.
use crate::print;
use marking::desk;
use retimer::sheet;
use std::io;

fn check_at(rt: &impl Print, s: &[u8], loaded: u32) -> io::Result<()> {
    desk::print_checked(rt, sheet::check(s, loaded))
}

fn check(rt: &impl Print, s: &[u8]) -> io::Result<()> {
    check_at(rt, s, 0)
}

// The course sheets.
pub fn course(rt: &impl Print) -> io::Result<()> {
    print::word(rt, b"check\n")?;
    let a = course::sheet_a();
    check(rt, &a)?;
    let b = course::sheet_b();
    check(rt, &b)?;
    let c = course::sheet_c();
    check(rt, &c)?;
    let d = course::sheet_d();
    check(rt, &d)?;
    let e = course::sheet_e();
    check(rt, &e)
}

// Some of a sheet's first bytes.
pub fn fronts(rt: &impl Print) -> io::Result<()> {
    let a = course::sheet_a();
    check(rt, &a[..0])?;
    check(rt, &a[..5])?;
    check(rt, &a[..6])?;
    check(rt, &a[..13])?;
    check(rt, &a[..14])?;
    check(rt, &a[..41])
}

// Loading dates: the last date, those above it, and sheets with a refusal of their own there.
pub fn dates(rt: &impl Print) -> io::Result<()> {
    let a = course::sheet_a();
    check_at(rt, &a, 1)?;
    check_at(rt, &a, 1_000_000_000)?;
    check_at(rt, &a, 1_000_000_001)?;
    check_at(rt, &a, 4_294_967_295)?;
    check_at(rt, &a[..5], 1_000_000_001)?;
    check_at(rt, &a[..41], 4_294_967_295)
}
