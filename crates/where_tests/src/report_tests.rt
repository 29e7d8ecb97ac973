// What is put of a place: its line without CR, and the caret under its byte.

use crate::calls::{SOURCE, ends, unfailing};

/// Sources, each with the line of its fault and what is put.
const REPORTS: [(&str, &str, &str); 8] = [
    (
        "let n : u8 = m;\n",
        "refused: name m",
        "b.frp:1:14: no definition has this name\nlet n : u8 = m;\n             ^\n",
    ),
    (
        "// tabs\n\tlet\tn : u8 =\t m\t+ 1;",
        "refused: name m",
        "b.frp:2:16: no definition has this name\n\tlet\tn : u8 =\t m\t+ 1;\n\t   \t        \t ^\n",
    ),
    (
        "setup TRISB = 0;\r\n\r\nlet n : u8 = m;\r\noutput PORTB = n;\r\n",
        "refused: name m",
        "b.frp:3:14: no definition has this name\nlet n : u8 = m;\n             ^\n",
    ),
    (
        "let n\r : u8 \r= m\r;",
        "refused: name m",
        "b.frp:1:16: no definition has this name\nlet n : u8 = m;\n             ^\n",
    ),
    (
        "\n\n\nevent Tick\n\n\n",
        "refused: unexpected 2",
        "b.frp:7:1: no program goes on so\n\n^\n",
    ),
    (
        "event Tick = INT",
        "refused: unexpected 4",
        "b.frp:1:17: no program goes on so\nevent Tick = INT\n                ^\n",
    ),
    (
        "event @ // \u{e9}\nevent",
        "refused: byte 6",
        "b.frp:1:7: no token begins with this byte\nevent @ // \u{e9}\n      ^\n",
    ),
    (
        "@",
        "refused: byte 0",
        "b.frp:1:1: no token begins with this byte\n@\n^\n",
    ),
];

#[test]
fn shows_the_line_and_the_caret(rt: HostRuntime) {
    for (source, line, put) in REPORTS {
        let words = [SOURCE, line];
        let call = unfailing(&words, Some(source.as_bytes()), 0, put);
        assert!(rt; ends(&rt, &call), "{put}");
    }
}
