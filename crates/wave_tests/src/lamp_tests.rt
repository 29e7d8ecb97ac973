// The waves of a run in which work is interrupted.

use crate::calls::{WORDS, ends, lamp};
use crate::lamp::LAMP_WAVES;

/// What the waves tell of the tick that is interrupted, from its latch at step 2000 to its commit at step 2227: its run
/// lasts from 2007 to 2228, the dimmer's within it from 2036 to 2073, and the level is 1, 2, 1 and 0.
const INTERRUPTED: &str = "\
#2001
1l7
b1 depth
#2007
0l7
1r7
b1 level
#2031
1l5
b10 depth
#2036
0l5
1r5
b10 level
#2067
1w5
#2068
b1111111 u53
#2070
b1111111 p2
#2073
0r5
0w5
b1 level
#2075
b1 depth
#2219
1w7
#2222
b1001010111 v51.52
#2228
0r7
0w7
b0 level
";

#[test]
fn shows_a_run_within_another(rt: HostRuntime) {
    assert!(rt; ends(&rt, &lamp(&WORDS), 0, LAMP_WAVES));
    assert!(rt; LAMP_WAVES.contains(INTERRUPTED));
}
