//! Sources, sinks and gates at work, and those in memory where they fail.
use crate::rows::{holds, met};
use outside_io::{
    Failed, Gate, MemSink, MemSource, OpenGate, Sink, Source, StdSink, StdSource, SureSink,
    SureSource,
};
use std::alloc::{AllocError, Global};
use std::process::Abort;

// Reads once and writes what came, at any source and sink.
fn pass_on<S: Source, K: Sink>(source: &mut S, sink: &mut K) -> Result<usize, Failed> {
    let mut buf = [0; 2];
    let count = source.read(&mut buf)?;
    sink.write(&buf[..count])
}

// What a thread does between its steps, at any gate.
fn pass<G: Gate>(gate: &G) {
    gate.before(0, 0);
    gate.inside(0, 1);
}

/// Whether the next read answers so, and the buffer is this then.
fn reads(
    source: &mut MemSource,
    buf: &mut [u8; 2],
    count: Result<usize, Failed>,
    bytes: &[u8],
) -> bool {
    if source.read(buf) != count {
        return false;
    }
    buf.as_slice() == bytes
}

/// A source of five bytes, of whose calls the second and the fifth fail.
fn gives_each(rt: &impl Abort, source: &mut MemSource) {
    let mut buf = [0; 2];
    holds(rt, 1, reads(source, &mut buf, Ok(2), b"ab"));
    holds(rt, 2, reads(source, &mut buf, Err(Failed), b"ab"));
    holds(rt, 3, reads(source, &mut buf, Ok(2), b"cd"));
    holds(rt, 4, reads(source, &mut buf, Ok(1), b"ed"));
    holds(rt, 5, reads(source, &mut buf, Err(Failed), b"ed"));
    holds(rt, 6, reads(source, &mut buf, Ok(0), b"ed"));
}

#[test]
fn a_source_in_memory_gives_its_bytes_once_and_fails_at_the_calls_named(
    rt: HostRuntime,
) -> Result<(), AllocError> {
    let mut source = MemSource::new(rt.alloc(), b"abcde", &[1, 4])?;
    gives_each(&rt, &mut source);
    Ok(())
}

/// A source of three bytes that gives one a call, and of whose calls the second fails.
fn gives_singly(rt: &impl Abort, source: &mut MemSource) {
    let mut buf = [0; 2];
    holds(rt, 1, reads(source, &mut buf, Ok(1), b"a\0"));
    holds(rt, 2, reads(source, &mut buf, Err(Failed), b"a\0"));
    holds(rt, 3, reads(source, &mut buf, Ok(1), b"b\0"));
    holds(rt, 4, reads(source, &mut buf, Ok(1), b"c\0"));
    holds(rt, 5, reads(source, &mut buf, Ok(0), b"c\0"));
}

#[test]
fn a_source_in_pieces_gives_so_many_bytes_a_call(rt: HostRuntime) -> Result<(), AllocError> {
    let mut source = MemSource::in_pieces(rt.alloc(), b"abc", &[1], 1)?;
    gives_singly(&rt, &mut source);
    Ok(())
}

/// Whether a write of the piece answers so, and the sink has these bytes then.
fn writes(sink: &mut MemSink, piece: &[u8], count: Result<usize, Failed>, contents: &[u8]) -> bool {
    if sink.write(piece) != count {
        return false;
    }
    sink.contents() == contents
}

/// Whether a sink takes a piece that fills it.
fn just_fits(alloc: Global) -> Result<bool, AllocError> {
    let mut sink = MemSink::new(alloc, 2, &[])?;
    Ok(writes(&mut sink, b"ab", Ok(2), b"ab"))
}

/// A sink with room for five bytes, of whose calls the second fails.
fn takes_each(rt: &impl Abort, sink: &mut MemSink) {
    holds(rt, 1, writes(sink, b"ab", Ok(2), b"ab"));
    holds(rt, 2, writes(sink, b"c", Err(Failed), b"ab"));
    holds(rt, 3, writes(sink, b"cd", Ok(2), b"abcd"));
    holds(rt, 4, writes(sink, b"ef", Ok(1), b"abcde"));
    holds(rt, 5, writes(sink, b"f", Err(Failed), b"abcde"));
    holds(rt, 6, writes(sink, b"", Ok(0), b"abcde"));
}

#[test]
fn a_sink_in_memory_fails_at_the_calls_named_and_where_its_room_is_full(
    rt: HostRuntime,
) -> Result<(), AllocError> {
    let mut sink = MemSink::new(rt.alloc(), 5, &[1])?;
    takes_each(&rt, &mut sink);
    met(&rt, 7, just_fits(rt.alloc()));
    Ok(())
}

/// A sink with room for three bytes that takes one a call, and of whose calls the second fails.
fn takes_singly(rt: &impl Abort, sink: &mut MemSink) {
    holds(rt, 1, writes(sink, b"ab", Ok(1), b"a"));
    holds(rt, 2, writes(sink, b"b", Err(Failed), b"a"));
    holds(rt, 3, writes(sink, b"bc", Ok(1), b"ab"));
    holds(rt, 4, writes(sink, b"", Ok(0), b"ab"));
    holds(rt, 5, writes(sink, b"cd", Ok(1), b"abc"));
    holds(rt, 6, writes(sink, b"d", Err(Failed), b"abc"));
}

#[test]
fn a_sink_in_pieces_takes_so_many_bytes_a_call(rt: HostRuntime) -> Result<(), AllocError> {
    let mut sink = MemSink::in_pieces(rt.alloc(), 3, &[1], 1)?;
    takes_singly(&rt, &mut sink);
    Ok(())
}

/// Whether so many bytes pass from the source to the sink.
fn passes<S: Source, K: Sink>(source: &mut S, sink: &mut K, count: usize) -> bool {
    pass_on(source, sink) == Ok(count)
}

/// Three bytes pass in pieces of two.
fn passes_each(rt: &impl Abort, source: &mut SureSource, sink: &mut MemSink) {
    holds(rt, 1, passes(source, sink, 2));
    holds(rt, 2, passes(source, sink, 1));
    holds(rt, 3, passes(source, sink, 0));
    holds(rt, 4, sink.contents() == b"abc".as_slice());
}

fn fills(rt: &impl Abort, alloc: Global, sink: &mut MemSink) -> Result<(), AllocError> {
    let mut source = SureSource::new(alloc, b"abc")?;
    passes_each(rt, &mut source, sink);
    Ok(())
}

/// Whether two bytes pass to a sink that never fails.
fn fills_sure(alloc: Global) -> Result<bool, AllocError> {
    let mut source = MemSource::new(alloc, b"abc", &[])?;
    Ok(passes(&mut source, &mut SureSink::new(), 2))
}

#[test]
fn what_a_source_gives_passes_to_a_sink(rt: HostRuntime) -> Result<(), AllocError> {
    let mut sink = MemSink::new(rt.alloc(), 3, &[])?;
    pass(&OpenGate);
    met(&rt, 5, fills_sure(rt.alloc()));
    fills(&rt, rt.alloc(), &mut sink)
}

#[test]
fn standard_input_gives_nothing_to_an_empty_buffer(rt: HostRuntime) {
    let mut source = StdSource::new(rt.stdin());
    holds(&rt, 1, source.read(&mut []) == Ok(0));
}

/// Whether a sink takes the whole piece.
fn takes<K: Sink>(sink: &mut K, piece: &[u8]) -> bool {
    sink.write(piece) == Ok(piece.len())
}

#[test]
fn standard_output_takes_an_empty_piece_and_a_line(rt: HostRuntime) {
    let mut sink = StdSink::new(rt.stdout());
    holds(&rt, 1, takes(&mut sink, b""));
    holds(&rt, 2, takes(&mut sink, b"\n"));
}
