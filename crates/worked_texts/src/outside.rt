//! The forms in memory of all that is outside, and texts that are put and poured.
ghost use Rattle.std.specs.Prelude.{◌≡◌, ◌<◌, length, map};
ghost use Rattle.av_base.specs.Connections.{IsUsable, standing_of};

use av_base::{
    Fault, Links, MemLinks, MemShelf, MemSink, MemSource, NoLinks, NoMemory, NoShelf, Plan,
    PlanStep, Shelf, Source, Steps, pour, pour_piece, put_all,
};
use std::marker::Brand;

// What a call that moves bytes answers.
type Moved = Result<usize, Fault>;

// What a read of two bytes answers and gives.
fn read_two(source: &mut MemSource) -> (Moved, [u8; 2]) {
    let mut buffer = [0u8; 2];
    let moved = source.read(&mut buffer);
    (moved, buffer)
}

#[test]
fn a_source_reads_in_pieces(rt: HostRuntime) -> Result<(), NoMemory> {
    let alloc = rt.alloc();
    let steps = [PlanStep::AtMost(0), PlanStep::Fail, PlanStep::AtMost(9)];
    let mut source = MemSource::new(alloc, &[7, 8, 9], Plan::new(alloc, &steps)?)?;
    assert_eq!(rt; read_two(&mut source), (Ok(1), [7, 0]));
    assert_eq!(rt; read_two(&mut source), (Err(Fault), [0, 0]));
    assert_eq!(rt; read_two(&mut source), (Ok(2), [8, 9]));
    assert_eq!(rt; read_two(&mut source), (Ok(0), [0, 0]));
    Ok(())
}

#[test]
fn a_sink_gets_all_of_a_text(rt: HostRuntime) -> Result<(), NoMemory> {
    let alloc = rt.alloc();
    let plan = Plan::new(alloc, &[PlanStep::AtMost(2), PlanStep::AtMost(1)])?;
    let mut sink = MemSink::new(alloc, plan);
    assert_eq!(rt; put_all(&mut sink, b"route"), Ok(()));
    assert_eq!(rt; sink.written(), b"route".as_slice());
    Ok(())
}

#[test]
fn a_sink_that_fails_keeps_the_front(rt: HostRuntime) -> Result<(), NoMemory> {
    let alloc = rt.alloc();
    let plan = Plan::new(alloc, &[PlanStep::AtMost(2), PlanStep::Fail])?;
    let mut sink = MemSink::new(alloc, plan);
    assert_eq!(rt; put_all(&mut sink, b"route"), Err(Fault));
    assert_eq!(rt; sink.written(), b"ro".as_slice());
    Ok(())
}

#[test]
fn a_text_of_less_than_a_piece_is_held(rt: HostRuntime) -> Result<(), NoMemory> {
    let alloc = rt.alloc();
    let mut sink = MemSink::new(alloc, Plan::new(alloc, &[])?);
    let mut text = Vec::from_slice(alloc, b"route")?;
    assert_eq!(rt; pour_piece(&mut sink, &mut text), Ok(()));
    assert_eq!(rt; sink.written(), b"".as_slice());
    Ok(())
}

#[test]
fn what_a_fault_leaves_is_poured_by_the_next_call(rt: HostRuntime) -> Result<(), NoMemory> {
    let alloc = rt.alloc();
    let plan = Plan::new(alloc, &[PlanStep::AtMost(2), PlanStep::Fail])?;
    let mut sink = MemSink::new(alloc, plan);
    let mut text = Vec::from_slice(alloc, b"route")?;
    assert_eq!(rt; pour(&mut sink, &mut text), Err(Fault));
    assert_eq!(rt; text.as_slice(), b"ute".as_slice());
    assert_eq!(rt; pour(&mut sink, &mut text), Ok(()));
    assert_eq!(rt; sink.written(), b"route".as_slice());
    Ok(())
}

#[test]
fn a_shelf_opens_files(rt: HostRuntime) -> Result<(), NoMemory> {
    let alloc = rt.alloc();
    let mut shelf = MemShelf::new(alloc, Plan::new(alloc, &[PlanStep::Fail])?);
    shelf.put("table", &[7, 8, 9])?;
    assert_eq!(rt; shelf.open_file("table"), Err(Fault));
    assert_eq!(rt; shelf.open_file("tables"), Ok(None));
    assert_eq!(rt; shelf.open_file("table"), Ok(Some(0)));
    assert_eq!(rt; shelf.open_file("table"), Ok(Some(1)));
    Ok(())
}

// What a read of two bytes of a file answers and gives.
fn read_file(shelf: &mut MemShelf, file: u32) -> (Moved, [u8; 2])
    requires { file < length shelf.old.left }
    ensures { length shelf.new.left ≡ length shelf.old.left }
{
    let mut buffer = [0u8; 2];
    let moved = shelf.read(file, &mut buffer);
    (moved, buffer)
}

// Each opening of a name is a file of its own, which keeps the bytes that the name had.
#[test]
fn an_opened_file_keeps_its_bytes(rt: HostRuntime) -> Result<(), NoMemory> {
    let alloc = rt.alloc();
    let mut shelf = MemShelf::new(alloc, Plan::new(alloc, &[])?);
    shelf.put("table", &[7, 8, 9])?;
    let Ok(Some(old)) = shelf.open_file("table") else {
        return Err(NoMemory);
    };
    shelf.put("table", &[5])?;
    let Ok(Some(new)) = shelf.open_file("table") else {
        return Err(NoMemory);
    };
    assert_eq!(rt; read_file(&mut shelf, old), (Ok(2), [7, 8]));
    assert_eq!(rt; read_file(&mut shelf, new), (Ok(1), [5, 0]));
    assert_eq!(rt; read_file(&mut shelf, old), (Ok(1), [9, 0]));
    assert_eq!(rt; read_file(&mut shelf, old), (Ok(0), [0, 0]));
    Ok(())
}

#[test]
fn without_files_and_connections_each_call_fails(rt: HostRuntime) {
    assert_eq!(rt; NoShelf::new().open_file("table"), Err(Fault));
    assert_eq!(rt; NoLinks::new().connect("cache"), Err(Fault));
}

#[test]
fn a_connection_in_memory_follows_its_plan(rt: HostRuntime) -> Result<(), NoMemory> {
    let alloc = rt.alloc();
    let plan = Plan::new(
        alloc,
        &[
            PlanStep::Fail,
            PlanStep::AtMost(9),
            PlanStep::AtMost(2),
            PlanStep::AtMost(1),
        ],
    )?;
    let mut links = MemLinks::new(alloc, plan);
    links.put("cache", &[5, 6])?;
    assert_eq!(rt; links.connect("cache"), Err(Fault));
    let Ok(link) = links.connect("cache") else {
        return Err(NoMemory);
    };
    let (moved, first) = talk(&mut links, link);
    assert_eq!(rt; (moved, first), ((Ok(2), Ok(1)), 5));
    assert_eq!(rt; links.connect("cache"), Err(Fault));
    Ok(())
}

// Sends three bytes, receives at most two, and closes: what both calls answer, and the first byte received.
fn talk(links: &mut MemLinks, link: u32) -> ((Moved, Moved), u8)
    requires { IsUsable (map standing_of links.old.links) link }
{
    let sent = links.send(link, &[1, 2, 3]);
    if sent.is_err() {
        return ((sent, Err(Fault)), 0);
    }
    let mut buffer = [0u8; 2];
    let received = links.recv(link, &mut buffer);
    if received.is_ok() {
        links.close(link);
    }
    ((sent, received), buffer[0])
}

// A file that was let go has nothing left, and the others keep theirs.
#[test]
fn a_shelf_lets_a_file_go(rt: HostRuntime) -> Result<(), NoMemory> {
    let alloc = rt.alloc();
    let mut shelf = MemShelf::new(alloc, Plan::new(alloc, &[])?);
    shelf.put("table", &[7, 8, 9])?;
    let Ok(Some(gone)) = shelf.open_file("table") else {
        return Err(NoMemory);
    };
    let Ok(Some(kept)) = shelf.open_file("table") else {
        return Err(NoMemory);
    };
    shelf.close_file(gone);
    assert_eq!(rt; read_file(&mut shelf, gone), (Ok(0), [0, 0]));
    assert_eq!(rt; read_file(&mut shelf, kept), (Ok(2), [7, 8]));
    Ok(())
}

// With ample memory the attempts stay told, whatever fails.
#[test]
fn attempts_are_told(rt: HostRuntime) -> Result<(), NoMemory> {
    let alloc = rt.alloc();
    let mut links = MemLinks::new(alloc, Plan::new(alloc, &[PlanStep::Fail])?);
    for _ in 0..100 {
        links.put("cache", &[5])?;
        assert_eq!(rt; links.connect("nowhere"), Err(Fault));
        assert!(rt; links.connect("cache").is_ok());
        assert!(rt; links.tells_attempts());
    }
    Ok(())
}

// A counter of steps costs nothing when the program runs.
#[test]
fn steps_take_no_bytes(rt: HostRuntime) {
    assert_eq!(rt; size_of::<Steps<Brand>>(), 0);
}
