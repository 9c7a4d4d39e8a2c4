//! Rows, and the outside in memory: sources, sinks with pages of output, and files.

use gl_base::{
    FileAnswer, Files, Input, MemFile, MemFiles, MemSink, MemSource, NoMemory, PAGE, Page, Row,
    SinkAnswer, copy_out, read_all,
};
use std::alloc::Global;
use std::test::Fail;

// A row of these, or an empty one where memory runs out.
fn row<T: Copy>(alloc: Global, from: &[T]) -> Row<T> {
    match Row::of(alloc, from) {
        Ok(row) => row,
        Err(NoMemory) => Row::new(alloc),
    }
}

#[test]
fn a_row_is_a_list(rt: HostRuntime) -> Result<(), Fail> {
    let mut row = row(rt.alloc(), &[1u8]);
    row.push(2)?;
    row.extend(&[3])?;
    assert!(rt; row.as_slice() == [1, 2, 3].as_slice() && row.len() == 3);
    row.truncate(0);
    assert!(rt; row.is_empty());
    Ok(())
}

// What reading "abc" comes to, where the read of this number fails.
fn read_failing(alloc: Global, number: u32, limit: usize) -> Input {
    let mut source = MemSource::failing(row(alloc, b"abc"), row(alloc, &[number]));
    read_all(alloc, &mut source, limit)
}

fn read_sure(alloc: Global, limit: usize) -> Input {
    read_all(alloc, &mut MemSource::new(row(alloc, b"abc")), limit)
}

fn is_whole(answer: &Input) -> bool {
    match answer {
        Input::Whole(all) => all.as_slice() == b"abc".as_slice(),
        _ => false,
    }
}

#[test]
fn reads_to_the_end(rt: HostRuntime) -> Result<(), Fail> {
    let alloc = rt.alloc();
    assert!(rt; is_whole(&read_failing(alloc, 3, 3)) && is_whole(&read_sure(alloc, 3)));
    assert!(rt; matches!(read_failing(alloc, 3, 2), Input::Longer));
    assert!(rt; matches!(read_failing(alloc, 2, 3), Input::Failed));
    Ok(())
}

fn copies(sink: &mut MemSink, bytes: &[u8]) -> bool {
    copy_out(sink, bytes) == SinkAnswer::Done
}

fn has(sink: &MemSink, bytes: &[u8]) -> bool {
    sink.bytes() == bytes
}

#[test]
fn a_sink_fails_at_its_calls_and_past_its_room(rt: HostRuntime) -> Result<(), Fail> {
    let alloc = rt.alloc();
    let mut sink = MemSink::failing(alloc, 3, row(alloc, &[2]))?;
    assert!(rt; copies(&mut sink, b"ab") && !copies(&mut sink, b"c"));
    assert!(rt; !copies(&mut sink, b"cd") && copies(&mut sink, b"c"));
    assert!(rt; has(&sink, b"abc"));
    Ok(())
}

fn puts(page: &mut Page, sink: &mut MemSink, bytes: &[u8]) -> bool {
    page.put(sink, bytes) == SinkAnswer::Done
}

fn makes_room(page: &mut Page, sink: &mut MemSink, size: usize) -> bool {
    page.make_room(sink, size) == SinkAnswer::Done
}

fn sends(page: &mut Page, sink: &mut MemSink) -> bool {
    page.send(sink) == SinkAnswer::Done
}

#[test]
fn a_page_goes_out_where_it_has_no_room(rt: HostRuntime) -> Result<(), Fail> {
    let mut sink = MemSink::new(rt.alloc(), 4)?;
    let mut page = Page::new();
    assert!(rt; puts(&mut page, &mut sink, b"ab") && has(&sink, b""));
    assert!(rt; makes_room(&mut page, &mut sink, PAGE) && has(&sink, b"ab"));
    assert!(rt; puts(&mut page, &mut sink, b"cd") && sends(&mut page, &mut sink));
    assert!(rt; has(&sink, b"abcd") && !puts(&mut page, &mut sink, &[7; PAGE + 1]));
    Ok(())
}

// One file.
fn plan_file(alloc: Global) -> Row<MemFile> {
    let mut files = Row::new(alloc);
    let _ = files.push(MemFile {
        name: row(alloc, b"plan"),
        bytes: row(alloc, b"abc"),
    });
    files
}

// What reading a file comes to, where the call of this number fails.
fn file_failing(alloc: Global, number: u32, limit: usize) -> FileAnswer {
    MemFiles::failing(plan_file(alloc), row(alloc, &[number])).read_file(alloc, "plan", limit)
}

fn file_sure(alloc: Global, name: &str) -> FileAnswer {
    MemFiles::new(plan_file(alloc)).read_file(alloc, name, 3)
}

fn is_file(answer: &FileAnswer) -> bool {
    match answer {
        FileAnswer::Whole(all) => all.as_slice() == b"abc".as_slice(),
        _ => false,
    }
}

#[test]
fn reads_files_up_to_a_limit(rt: HostRuntime) -> Result<(), Fail> {
    let alloc = rt.alloc();
    assert!(rt; is_file(&file_failing(alloc, 2, 3)) && is_file(&file_sure(alloc, "plan")));
    assert!(rt; matches!(file_failing(alloc, 2, 2), FileAnswer::Longer));
    assert!(rt; matches!(file_failing(alloc, 1, 3), FileAnswer::Failed));
    assert!(rt; matches!(file_sure(alloc, "pla"), FileAnswer::Failed));
    Ok(())
}
