// The unit: reads commands from standard input, one to a line, and answers each.
#![tactic(auto)]

mod show;

use crate::show::{Deal, Hex, Maybe};
use book::outcome::Receipt;
use byte_tape::codec::encode;
use byte_tape::{ByteTape, Bytes};
use console::command::{Command, Order};
use console::parse::parse_line;
use desk::desk::Desk;
use orders::row::OrderRow;
use std::io;
use std::io::{BufRead, BufReader};
use tape::Tape;
use tape::reading::trade_at;
use terms::refusal::Refusal;

// The places of the order table, and the records that the tape can hold.
const PLACES: usize = 1_024;

const TAPE_BYTES: usize = 48 * 1_024;

fn refuse(rt: &HostRuntime, refusal: Refusal) -> io::Result<()> {
    println!(rt; "refused {refusal}")
}

// The trades after so many, each on a line.
fn show_trades(rt: &HostRuntime, tape: &ByteTape<'_>, before: u32) -> io::Result<()> {
    for number in before.saturating_add(1)..=tape.count() {
        if let Ok(trade) = trade_at(tape, number) {
            println!(rt; "  trade {number} {}", Deal(trade.into()))?;
        }
    }
    Ok(())
}

fn show_hex(rt: &HostRuntime, tape: &ByteTape<'_>) -> io::Result<()> {
    println!(rt; "hex {}", tape.count())?;
    for number in 1..=tape.count() {
        if let Ok(trade) = trade_at(tape, number) {
            let bytes = encode(trade.into());
            println!(rt; "  {}", Hex(&bytes))?;
        }
    }
    Ok(())
}

fn show_receipt(rt: &HostRuntime, r: Receipt<bool>) -> io::Result<()> {
    let Receipt {
        number,
        traded,
        rest,
        trades,
        halt,
    } = r;
    let halted = if halt { "market" } else { "none" };
    println!(rt; "ok order {number} traded {traded} rest {rest} trades {trades} halt {halted}")
}

fn enter(
    rt: &HostRuntime,
    desk: &mut Desk,
    table: &mut [OrderRow],
    tape: &mut ByteTape<'_>,
    order: Order,
) -> io::Result<()> {
    let before = tape.count();
    match desk.enter(table, tape, order) {
        Ok(receipt) => {
            show_receipt(rt, receipt)?;
            show_trades(rt, tape, before)
        }
        Err(refusal) => refuse(rt, refusal),
    }
}

fn carry_out(
    rt: &HostRuntime,
    desk: &mut Desk,
    table: &mut [OrderRow],
    tape: &mut ByteTape<'_>,
    command: Command,
) -> io::Result<()> {
    match command {
        Command::Product {
            sweep,
            daily,
            reference,
        } => match desk.list(sweep, daily, reference) {
            Ok(()) => println!(rt; "ok"),
            Err(refusal) => refuse(rt, refusal),
        },
        Command::Enter(order) => enter(rt, desk, table, tape, order),
        Command::Top => match desk.top(table) {
            Ok((buy, sell)) => println!(rt; "top {} {}", Maybe(buy), Maybe(sell)),
            Err(refusal) => refuse(rt, refusal),
        },
        Command::Range => match desk.range() {
            Ok(range) => println!(rt; "range {} {}", range.low, range.high),
            Err(refusal) => refuse(rt, refusal),
        },
        Command::Tape => {
            println!(rt; "tape {}", tape.count())?;
            show_trades(rt, tape, 0)
        }
        Command::Hex => show_hex(rt, tape),
    }
}

fn main(rt: HostRuntime) -> io::Result<()> {
    let mut input = BufReader::new(rt.alloc(), rt.stdin())?;
    let mut table = vec![in rt.alloc(); OrderRow::FREE; PLACES]?;
    let mut memory = vec![in rt.alloc(); 0u8; TAPE_BYTES]?;
    let mut tape = ByteTape::new(Bytes(&mut memory));
    let mut desk = Desk::new();
    let mut line = Vec::new(rt.alloc());
    for number in 1..u64::MAX {
        line.clear();
        if input.read_until(b'\n', &mut line)? == 0 {
            break;
        }
        match parse_line(&line) {
            Ok(Some(command)) => carry_out(&rt, &mut desk, &mut table, &mut tape, command)?,
            Ok(None) => {}
            Err(fault) => println!(rt; "error line {number}: {fault}")?,
        }
    }
    Ok(())
}
