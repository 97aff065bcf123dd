use super::*;
use packet_fields::{PacketInfo, fields};
use rss_base::{Link, NoMemory, Text};
use std::alloc::Global;
use std::test::Fail;

fn packet(nanos: u64, original: u32, flags: u8) -> PacketInfo {
    let mut packet = fields(Link::Ethernet, b"", nanos, original);
    packet.flags = flags;
    packet
}

// Whether three packets give this line. Time falls before the last of them.
fn gives<W: FlowWork>(alloc: Global, work: &W, line: &[u8]) -> Result<bool, NoMemory> {
    let first = work.step(work.begin(), &packet(1000, 60, SYN));
    let second = work.step(first, &packet(1245, 70, 0x10));
    let third = work.step(second, &packet(100, 80, 0x10));
    let mut text = Text::new(alloc);
    work.line(&third, &mut text)?;
    Ok(text.bytes() == line)
}

#[test]
fn each_work_prints_its_line(rt: HostRuntime) -> Result<(), Fail> {
    let alloc = rt.alloc();
    assert!(rt; gives(alloc, &Count, b"packets 3 bytes 210")?);
    assert!(rt; gives(alloc, &TcpFlags, b"flags 12 syn 1 fin 0 rst 0")?);
    assert!(rt; gives(alloc, &Gaps, b"gap 245")?);
    assert!(rt; gives(alloc, &OrderFold, b"order 59910")?);
    Ok(())
}
