// Each implementation, used once through its bound.
ghost use Rattle.std.specs.Prelude.{◌≡◌, OnOk};
ghost use Rattle.io_edge.specs.Yards.{TellsOneMore, with_last};

use io_edge::faulty::{FaultySink, FaultySource, FaultyYard, ShortSink};
use io_edge::{
    Disk, Failed, MemoryYard, PlainDisk, ReadSource, Sink, SliceSource, Source, VecSink, WriteSink,
    Yard, YardRefusal, write_all,
};
use std::io::Cursor;
use std::test::Fail;

/// Passes one piece on.
fn pass<S: Source, K: Sink>(source: &mut S, sink: &mut K) -> Result<(), Failed> {
    let mut piece = [0u8; 8];
    let count = source.read(&mut piece)?;
    write_all(sink, &piece[..count])
}

/// Appends the octets, and reads four from where they begin.
fn append<D: Disk>(disk: &mut D, octets: &[u8]) -> Result<[u8; 4], Failed> {
    let mut found = [0u8; 4];
    let at = disk.len()?;
    let Ok(()) = disk.reserve(octets.len() as u64) else {
        return Ok(found);
    };
    disk.write_at(at, octets)?;
    disk.sync()?;
    disk.read(at, &mut found)?;
    Ok(found)
}

/// Takes the store of one node and gives it back.
fn borrow<Y: Yard>(yard: &mut Y) -> Result<(), YardRefusal>
    ensures { OnOk result ((store : _) × (Y.handed yard.new ≡ with_last (Y.handed yard.old) (3, 1, store))
        × TellsOneMore (Y.returned yard.old) (Y.returned yard.new) (3, 1, store)) }
{
    let store = yard.store(3, 1, "folder")?;
    yard.give_back(3, 1, store);
    Ok(())
}

#[test]
fn octets_pass(rt: HostRuntime) -> Result<(), Fail> {
    let alloc = rt.alloc();
    let mut sink = VecSink::new(alloc);
    assert_eq!(rt; pass(&mut SliceSource::new(b"hello"), &mut sink), Ok(()));
    assert_eq!(rt; sink.held.as_slice(), b"hello".as_slice());

    let mut sink = WriteSink::new(Vec::new(alloc));
    let mut source = ReadSource::new(Cursor::new(b"hello".as_slice()));
    assert_eq!(rt; pass(&mut source, &mut sink), Ok(()));
    assert_eq!(rt; sink.inner.as_slice(), b"hello".as_slice());
    Ok(())
}

#[test]
fn streams_fail_once(rt: HostRuntime) -> Result<(), Fail> {
    let alloc = rt.alloc();
    let mut source = FaultySource::new(SliceSource::new(b"hello"), 1);
    let short = ShortSink {
        inner: VecSink::new(alloc),
        most: 2,
    };
    let mut sink = FaultySink::new(short, 5);
    assert_eq!(rt; pass(&mut source, &mut sink), Err(Failed));
    assert_eq!(rt; pass(&mut source, &mut sink), Ok(()));
    assert_eq!(rt; sink.inner.inner.held.as_slice(), b"hello".as_slice());
    assert_eq!(rt; write_all(&mut sink, b"again"), Err(Failed));
    assert_eq!(rt; sink.inner.inner.held.as_slice(), b"helloag".as_slice());
    Ok(())
}

#[test]
fn a_disk_holds_what_was_written(rt: HostRuntime) -> Result<(), Fail> {
    let mut disk = PlainDisk::new(rt.alloc());
    assert_eq!(rt; append(&mut disk, b"mail"), Ok(*b"mail"));
    assert_eq!(rt; disk.restart(), Ok(()));
    assert_eq!(rt; append(&mut disk, b"over"), Ok(*b"over"));
    assert_eq!(rt; disk.octets.as_slice(), b"mailover".as_slice());
    Ok(())
}

#[test]
fn a_yard_lends_its_stores(rt: HostRuntime) -> Result<(), Fail> {
    let alloc = rt.alloc();
    let mut stores = Vec::new(alloc);
    stores.push(PlainDisk::new(alloc))?;
    let mut yard = FaultyYard::new(MemoryYard::new(alloc, stores), 1);
    for wanted in [Err(YardRefusal::Failed), Ok(()), Err(YardRefusal::Failed)] {
        assert_eq!(rt; borrow(&mut yard), wanted);
    }
    assert_eq!(rt; yard.countdown.faults, 1);
    assert_eq!(rt; yard.inner.faults, 1);
    assert_eq!(rt; yard.inner.returned.len(), 1);
    assert_eq!(rt;
        (yard.inner.returned[0].0, yard.inner.returned[0].1),
        (3, 1)
    );
    Ok(())
}
