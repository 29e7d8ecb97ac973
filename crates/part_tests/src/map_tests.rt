// The map of the firmware of a program of three levels, whose state of 16 bits begins in the last byte of bank 0.
use crate::helpers::checked;
use bank_alloc::{Needs, place};
use causality::Checked;
use expr_lower::Cells;
use firmware_map::{Uses, map_of};
use frp_tree::Ty;
use map_file::{Map, Range};
use pic_isa::Source;
use pic_regs::Place;
use priority_masks::Levels;
use scratch_commit::Frame;
use std::alloc::Global;
use std::test::Fail;

const LAMP: &str =
    "event Tick = TMR1 priority 1; event Dim = CCP1 priority 4; event Button = INT priority 9; setup TRISC = 0; setup ADCON1 = 6; let on : bool = init false in { Button => !on; }; let seen : u8 = level; let left : u16 = init 0w in { Tick => left + 1w later; }; let level : u8 = init 255 in { Dim => level >> 1; }; output PORTC = level; output PORTE = seen;";

// States from 6Eh on, and two cells behind them.
const NEEDS: Needs = Needs {
    states: 4,
    levels: 13,
    scratch: 6,
};

const CELLS: u32 = 6;

// The frames of runs of levels 2 and 3.
const FRAMES: [Frame; 2] = [
    Frame {
        status: Some(Place::Plain(0x027)),
        pclath: None,
        intcon: Some(Place::Plain(0x029)),
        pie1: None,
        pie2: None,
    },
    Frame {
        status: Some(Place::Plain(0x071)),
        pclath: None,
        intcon: None,
        pie1: None,
        pie2: None,
    },
];

// The addresses of marks: opens at 101h, 102h and 103h, commits at 201h, 202h and 203h, the ready address 7FEh.
fn marks() -> [u16; 49] {
    let mut marks = [0u16; 49];
    for event in 0..3 {
        marks[16 + event] = 0x101 + event as u16;
        marks[32 + event] = 0x201 + event as u16;
    }
    marks[48] = 0x7FE;
    marks
}

fn map_with(alloc: Global, c: &Checked, pages: bool) -> Result<Map, Fail> {
    let Ok(levels) = Levels::new(c) else {
        return Err(Fail::new("there are three levels"));
    };
    let Ok(places) = place(&NEEDS) else {
        return Err(Fail::new("the bytes fit"));
    };
    if Cells::of_states(alloc, c)?.count() > CELLS {
        return Err(Fail::new("there are four cells of states"));
    }
    let uses = Uses {
        c,
        places: &places,
        frames: &FRAMES,
        cells: CELLS,
        pages,
    };
    Ok(map_of(alloc, &uses, &marks(), 1234, levels.count(), 56789)?)
}

fn map_of_lamp(alloc: Global, pages: bool) -> Result<Map, Fail> {
    map_with(alloc, &checked(alloc, LAMP)?, pages)
}

fn range(from: u16, to: u16) -> Range {
    Range { from, to }
}

fn has_event(map: &Map, n: u8, name: &str, source: Source, priority: u8) -> bool {
    match map.events.get(usize::from(n)) {
        Some(event) => {
            event.name.as_str() == name
                && event.source == source
                && event.priority == priority
                && event.open == 0x101 + u16::from(n)
                && event.commit == 0x201 + u16::from(n)
        }
        None => false,
    }
}

fn has_state(map: &Map, n: usize, name: &str, ty: Ty, low: u16, high: u16) -> bool {
    match map.states.get(n) {
        Some(state) => {
            state.name.as_str() == name && state.ty == ty && state.low == low && state.high == high
        }
        None => false,
    }
}

#[test]
fn map_has_each_field(rt: HostRuntime) -> Result<(), Fail> {
    let map = map_of_lamp(rt.alloc(), false)?;
    assert_eq!(rt; map.events.len(), 3);
    assert!(rt; has_event(&map, 0, "Tick", Source::Tmr1, 1));
    assert!(rt; has_event(&map, 1, "Dim", Source::Ccp1, 4));
    assert!(rt; has_event(&map, 2, "Button", Source::Int, 9));
    assert_eq!(rt; map.states.len(), 3);
    assert!(rt; has_state(&map, 0, "on", Ty::Bool, 0x06E, 0x06E));
    assert!(rt; has_state(&map, 1, "left", Ty::U16, 0x06F, 0x0A0));
    assert!(rt; has_state(&map, 2, "level", Ty::U8, 0x0A1, 0x0A1));
    assert!(rt; map.outputs.as_slice() == [2, 4].as_slice());
    assert_eq!(rt; map.samples.len(), 0);
    assert!(rt; map.ready == 0x7FE && map.depth == 3 && map.ram == 8);
    assert!(rt; map.words == 1234 && map.settle == 56789);
    let listed = [
        range(0x003, 0x003),
        range(0x007, 0x007),
        range(0x009, 0x009),
        range(0x00B, 0x00C),
        range(0x027, 0x027),
        range(0x029, 0x029),
        range(0x06E, 0x06F),
        range(0x071, 0x07F),
        range(0x087, 0x087),
        range(0x08C, 0x08C),
        range(0x09F, 0x0A3),
    ];
    assert!(rt; map.regs.as_slice() == listed.as_slice());
    Ok(())
}

#[test]
fn map_lists_pclath_with_pages(rt: HostRuntime) -> Result<(), Fail> {
    let map = map_of_lamp(rt.alloc(), true)?;
    let Some(third) = map.regs.get(2) else {
        return Err(Fail::new("there are three ranges"));
    };
    assert!(rt; *third == range(0x009, 0x00C));
    assert_eq!(rt; map.regs.len(), 10);
    Ok(())
}
