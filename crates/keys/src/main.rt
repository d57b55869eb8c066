// Runs the keys of document 01 and edge cases. Each question prints its title and then the desk program's lines. What is expected of it stands in the
// file `stdout`, written from document 01; the comment above each question says why.
#![tactic(auto)]

mod ask;
mod calls;
mod document;
mod edges;
mod largest;
mod loading;
mod sheets;
mod tails;

use std::io;

fn main(rt: HostRuntime) -> io::Result<()> {
    document::proved(&rt)?;
    document::full(&rt)?;
    document::bounds(&rt)?;
    document::no_calls(&rt)?;
    calls::input(&rt)?;
    calls::date(&rt)?;
    calls::late(&rt)?;
    calls::room(&rt)?;
    calls::numbers(&rt)?;
    calls::collections(&rt)?;
    sheets::size(&rt)?;
    sheets::start(&rt)?;
    sheets::layout(&rt)?;
    sheets::fields(&rt)?;
    sheets::guards(&rt)?;
    sheets::overlaps(&rt)?;
    edges::one_clock(&rt)?;
    edges::resets(&rt)?;
    edges::batches(&rt)?;
    edges::decisions(&rt)?;
    loading::midday(&rt)?;
    loading::limit(&rt)?;
    largest::all(&rt)?;
    tails::all(&rt)
}
