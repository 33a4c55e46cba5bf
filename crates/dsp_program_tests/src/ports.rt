use crate::memory::{sink_of, source_of};
use dsp_ports::{
    CleanSink, CleanSource, FillFault, LentSource, Sink, Source, Taker, fill, write_all,
};

#[test]
fn a_read_that_is_listed_fails_and_the_others_go_on(rt: HostRuntime) {
    let mut source = source_of(&rt, rt.alloc(), b"abcdefg", 3, &[2]);
    let mut block = [0; 4];
    assert_same!(&rt; source.read(&mut block).ok(), Some(3));
    assert_same!(&rt; block.as_slice(), b"abc\0".as_slice());
    assert_holds!(&rt; source.read(&mut block).is_err());
    assert_same!(&rt; source.read(&mut block).ok(), Some(3));
    assert_same!(&rt; block.as_slice(), b"def\0".as_slice());
    assert_same!(&rt; source.read(&mut block).ok(), Some(1));
    assert_same!(&rt; source.read(&mut block).ok(), Some(0));
}

#[test]
fn a_sink_fails_where_it_is_full_or_listed(rt: HostRuntime) {
    let mut sink = sink_of(&rt, rt.alloc(), 5, 2, &[3]);
    assert_holds!(&rt; write_all(&mut sink, b"abcd").is_ok());
    assert_holds!(&rt; sink.flush().is_err());
    assert_holds!(&rt; sink.flush().is_ok());
    assert_holds!(&rt; write_all(&mut sink, b"ef").is_err());
    assert_same!(&rt; sink.bytes(), b"abcde".as_slice());
}

fn read_once<S: Source>(source: &mut S, block: &mut [u8]) -> Option<usize> {
    source.read(block).ok()
}

#[test]
fn clean_ports_never_fail(rt: HostRuntime) {
    let mut source = CleanSource::new(rt.alloc(), b"abc", 2).expect(&rt, "memory");
    let mut block = [0; 4];
    assert_same!(&rt; read_once(&mut source, &mut block), Some(2));
    let mut sink = CleanSink::new();
    assert_holds!(&rt; write_all(&mut sink, b"abcd").is_ok());
    assert_same!(&rt; sink.count(), 4);
}

#[test]
fn a_block_is_filled_in_pieces_up_to_the_room(rt: HostRuntime) {
    let mut source = source_of(&rt, rt.alloc(), b"abcdefg", 3, &[]);
    let mut block = [0; 5];
    assert_same!(&rt; fill(&mut source, &mut block, 7).ok(), Some(5));
    assert_same!(&rt; block.as_slice(), b"abcde".as_slice());
    assert_same!(&rt;
        fill(&mut source, &mut block, 2).err(),
        Some(FillFault::LimitReached)
    );
    let mut short = source_of(&rt, rt.alloc(), b"ab", 3, &[2]);
    assert_same!(&rt;
        fill(&mut short, &mut block, 9).err(),
        Some(FillFault::Failed)
    );
}

/// The last byte that was lent.
#[derive(Drop)]
struct LastLent {
    byte: Option<u8>,
}

impl Taker for LastLent {
    ghost use Rattle.std.specs.Prelude.{⊤, length};

    ghost room = { λ _. 8 };

    ghost Takes = { λ _ _ _. ⊤ };

    fn take(&mut self, bytes: &[u8]) {
        self.byte = bytes.last().copied();
    }
}

#[test]
fn bytes_are_lent_where_they_lie(rt: HostRuntime) {
    let mut source = LentSource::new(b"abcdefg");
    let mut lent = LastLent { byte: None };
    assert_holds!(&rt; source.lend(3, &mut lent));
    assert_same!(&rt; lent.byte, Some(b'c'));
    assert_holds!(&rt; !source.lend(5, &mut lent));
    assert_same!(&rt; lent.byte, Some(b'c'));
    let mut block = [0; 8];
    assert_same!(&rt; source.read(&mut block).ok(), Some(4));
    assert_same!(&rt; block.as_slice(), b"defg\0\0\0\0".as_slice());
}
