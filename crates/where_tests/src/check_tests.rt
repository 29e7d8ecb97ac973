// Programs that don't pass the checks: at which token each fault is met, and which comes first.

use crate::rows::expect_told;

/// Faults of names.
const NAMES: &str = "\
event A = INT priority 1; event $A = RB priority 0; | refused: twice A | an event or a definition before has this name
event A = INT priority 1;\\nlet $A : u8 = m; | refused: twice A | an event or a definition before has this name
let n : u8 = m; let $n : u8 = 1; | refused: twice n | an event or a definition before has this name
event A = $RB priority 12; | refused: source RB | no source has this name
event A = INT priority 1; event B = $INT priority 0; | refused: source twice INT | an event before has this source
event A = INT priority $12; setup PORTF = 0; | refused: priority A 12 | a priority is 1 to 11
event A = INT priority 1; event B = T0 priority $0; | refused: priority B 0 | a priority is 1 to 11
setup $PCL = 1; let n : u8 = m; | refused: register PCL | no setup may name this register
setup TRISB = 0; setup $INTCON = 256; | refused: register INTCON | no setup may name this register
setup TRISB = 0; let n : u8 = input $TRISB; | refused: register TRISB | no port has this name
setup TRISB = 0; output $TRISB = 1; | refused: register TRISB | no port has this name
output PORTB = 1; output $PORTB = 2; | refused: output twice PORTB | an output before has this port
event A = T0 priority 1; let n : u8 = init 0 in { A => n; $B => 1; }; | refused: event B | no event has this name
event A = INT priority 1; let n : u8 = init 0 in { A => 1; $A => m; }; | refused: clause twice n A | a clause before is for this event
event A = INT priority 1; let n : u8 = init 0 in { A => 1; }; let m : u8 = init 0 in { A => 1; $A => m; }; | refused: clause twice m A | a clause before is for this event
let n : u8 = $m; | refused: name m | no definition has this name
event A = INT priority 1; output PORTB = $A; | refused: name A | no definition has this name
output PORTB = $a + (if b then c else d); | refused: name a | no definition has this name
let a : u8 = b; let b : u8 = $c; let c1 : u8 = c; | refused: name c | no definition has this name
let n : u8 = (1 + ~((n << 3) * u8(7w + $m))); | refused: name m | no definition has this name
let t : u8 = table { 1, 2 };\\nlet n : u8 = t[t[1] + $m] + k; | refused: name m | no definition has this name
let t : u8 = table { 1, 2 }; let n : bool = if !true then $k else m; | refused: name k | no definition has this name
event A = INT priority 1; let n : u8 = init 0 in { A => if n == 1 then n else (n + $m) later; }; | refused: name m | no definition has this name
event A = INT priority 1; event B = T0 priority 2; let n : u8 = init 0 in { A => n + 1; B => (n) - $m; }; output PORTB = k; | refused: name m | no definition has this name
let t : u8 = table { 1, 2 }; output PORTB = 1 + $t; | refused: table t | a table's name needs an index, and no other has one
let n : u8 = 1; output PORTB = (1) + $n[true]; | refused: table n | a table's name needs an index, and no other has one
output PORTB = 1; output PORTC = 256 + $m; | refused: name m | no definition has this name";

#[test]
fn tells_where_names_are_wrong(rt: HostRuntime) {
    expect_told(&rt, NAMES);
}

/// Types that are unlike, in an operand and in a whole expression.
const UNLIKE: &str = "\
let x : u8 = $~true; | refused: type x wanted u8 found bool | wanted u8, found bool
let x : bool = $!1; | refused: type x wanted bool found u8 | wanted bool, found u8
let x : bool = $!1w; | refused: type x wanted bool found u16 | wanted bool, found u16
let x : u8 = true $+ 1; | refused: type x wanted u8 found bool | wanted u8, found bool
let x : u8 = 1 $+ true; | refused: type x wanted u8 found bool | wanted u8, found bool
let x : u16 = 1w $- 1; | refused: type x wanted u16 found u8 | wanted u16, found u8
let x : u8 = 2 $* 2w; | refused: type x wanted u8 found u16 | wanted u8, found u16
let x : u8 = 2 $/ 2w; | refused: type x wanted u8 found u16 | wanted u8, found u16
let x : u8 = 2 $% 2w; | refused: type x wanted u8 found u16 | wanted u8, found u16
let x : u8 = 2 $& 2w; | refused: type x wanted u8 found u16 | wanted u8, found u16
let x : u16 = 2w $^ 2; | refused: type x wanted u16 found u8 | wanted u16, found u8
let x : bool = true $| false; | refused: type x wanted u8 found bool | wanted u8, found bool
let x : bool = true $< false; | refused: type x wanted u8 found bool | wanted u8, found bool
let x : bool = 1 $<= 1w; | refused: type x wanted u8 found u16 | wanted u8, found u16
let x : bool = 1w $> 1; | refused: type x wanted u16 found u8 | wanted u16, found u8
let x : bool = 1 $>= true; | refused: type x wanted u8 found bool | wanted u8, found bool
let x : bool = true $== 1; | refused: type x wanted bool found u8 | wanted bool, found u8
let x : bool = 1w $!= 1; | refused: type x wanted u16 found u8 | wanted u16, found u8
let x : bool = 1 $&& true; | refused: type x wanted bool found u8 | wanted bool, found u8
let x : bool = true $|| 1w; | refused: type x wanted bool found u16 | wanted bool, found u16
let x : u8 = true $<< 1; | refused: type x wanted u8 found bool | wanted u8, found bool
let x : u8 = $if 1 then 2 else 3; | refused: type x wanted bool found u8 | wanted bool, found u8
let x : u8 = $if true then 2 else 3w; | refused: type x wanted u8 found u16 | wanted u8, found u16
let x : u8 = $u8(1); | refused: type x wanted u16 found u8 | wanted u16, found u8
let x : u16 = $u16(1w); | refused: type x wanted u8 found u16 | wanted u8, found u16
let x : u8 = $t[1w]; let t : u8 = table { 1 }; | refused: type x wanted u8 found u16 | wanted u8, found u16
let x : u8 = $t[0]; let t : u16 = table { 1w }; | refused: type x wanted u8 found u16 | wanted u8, found u16
let x : u8 = $1w; | refused: type x wanted u8 found u16 | wanted u8, found u16
let x : u8 = $y; let y : bool = true; | refused: type x wanted u8 found bool | wanted u8, found bool
let x : u16 = input $PORTB; | refused: type x wanted u16 found u8 | wanted u16, found u8
let x : u16 = table { 1w, $2 }; | refused: type x wanted u16 found u8 | wanted u16, found u8
let x : u8 = init $true in { }; | refused: type x wanted u8 found bool | wanted u8, found bool
event A = INT priority 1; let x : u8 = init 0 in { A => $u16(x); }; | refused: type x wanted u8 found u16 | wanted u8, found u16
let x : u8 = (1w $+ (2w)); | refused: type x wanted u8 found u16 | wanted u8, found u16
let x : u8 = ((1w) $>> 1); | refused: type x wanted u8 found u16 | wanted u8, found u16
let x : u8 = 1 + (2 * (3 $- 4w)); | refused: type x wanted u8 found u16 | wanted u8, found u16
let x : u8 = u8(u16(1)) + u8(if 1w == 1w then 2w << 1 else $u16(2w)); | refused: type x wanted u8 found u16 | wanted u8, found u16
output PORTB = $1w; | refused: type PORTB wanted u8 found u16 | wanted u8, found u16";

#[test]
fn tells_where_types_are_unlike(rt: HostRuntime) {
    expect_told(&rt, UNLIKE);
}

/// Numbers that are too big where they stand.
const OUT_OF_RANGE: &str = "\
let x : u8 = $256; | refused: literal x | a number above 255 needs the suffix w
let x : u8 = init $65535 in { }; | refused: literal x | a number above 255 needs the suffix w
let x : u8 = table { 255, $256 }; | refused: literal x | a number above 255 needs the suffix w
let y : u8 = table { 1, 2, 3 }; let x : u8 = table { 255, 0, 0, $256 }; | refused: literal x | a number above 255 needs the suffix w
setup PR2 = $256; | refused: literal PR2 | the byte of a setup is at most 255
setup PR2 = 255; setup PR2 = $256; | refused: literal PR2 | the byte of a setup is at most 255
output PORTC = 1 + $300; | refused: literal PORTC | a number above 255 needs the suffix w
let x : u8 = 1 $<< 8; | refused: shift x | a u8 is shifted by at most 7, a u16 by at most 15
let x : u16 = 1w $>> 16; | refused: shift x | a u8 is shifted by at most 7, a u16 by at most 15
let x : bool = 1 $>> 65535 == 1w; | refused: shift x | a u8 is shifted by at most 7, a u16 by at most 15
let x : u8 = 1 << 7 << 7 $<< 8; | refused: shift x | a u8 is shifted by at most 7, a u16 by at most 15";

#[test]
fn tells_where_numbers_are_out_of_range(rt: HostRuntime) {
    expect_told(&rt, OUT_OF_RANGE);
}

/// Two faults, of which the first in the order of the walk is told.
const TWO_FAULTS: &str = "\
let x : u8 = $1w; output PORTB = true; | refused: type x wanted u8 found u16 | wanted u8, found u16
output PORTB = $true; output PORTC = 1w; | refused: type PORTB wanted u8 found bool | wanted u8, found bool
let x : bool = $!1 + 256; | refused: type x wanted bool found u8 | wanted bool, found u8
let x : u8 = $if 1 then 2 else 1w; | refused: type x wanted bool found u8 | wanted bool, found u8
let x : u8 = if 1 then 2 else $300; | refused: literal x | a number above 255 needs the suffix w
event A = INT priority 1; let x : u8 = init $1w in { A => true; }; | refused: type x wanted u8 found u16 | wanted u8, found u16
let PORTB : u8 = 1 + $256; output PORTB = 300; | refused: literal PORTB | a number above 255 needs the suffix w
setup TRISC = 1; let TRISC : u8 = $256; | refused: literal TRISC | a number above 255 needs the suffix w
setup TRISC = $256; let TRISC : u8 = 256; | refused: literal TRISC | the byte of a setup is at most 255
event Tick = INT priority 1; let m : u8 = m; let n : u16 = $1; | refused: type n wanted u16 found u8 | wanted u16, found u8";

#[test]
fn tells_the_first_of_two(rt: HostRuntime) {
    expect_told(&rt, TWO_FAULTS);
}

/// Definitions that depend on themselves.
const CYCLES: &str = "\
event Tick = INT priority 1; let $m : u8 = m; | refused: cycle Tick m | on Tick this depends on itself
event Go = T0 priority 2;\\nlet k : u8 = 1;\\r\\n\\tlet $x : u8 = init 1 in { Go => y + k; };\\nlet y : u8 = init 2 in { Go => x + x; }; | refused: cycle Go x | on Go this depends on itself
event Tick = INT priority 1; event Go = T0 priority 2; let c : u8 = a; let $a : u8 = init 0 in { Go => b; }; let b : u8 = init 0 in { Go => a; }; | refused: cycle Go a | on Go this depends on itself";

#[test]
fn tells_which_definition_depends_on_itself(rt: HostRuntime) {
    expect_told(&rt, CYCLES);
}
