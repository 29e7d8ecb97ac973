// The lamp of examples/lamp: its files, a script in which the dimmer interrupts the work for a tick, and the waves.

/// Its image.
pub const LAMP_HEX: &str = "\
:020000040000FA
:10000000B201B301B401D9288B189E280C197128AC
:1000100083160C1083010C10F3018B170130B6000E
:100020000030B7003708F400330836023408031CE8
:10003000340F7402013003180030B800320838055C
:10004000B900FF30BA000030BB0033083A05BC00ED
:1000500034083B05BD000030BE000030BF003E0844
:100060003302F4003F08340274040130031D0030F1
:10007000C0000030C1000030C2000130C3000030B9
:10008000C40043083302C5004408031C013E340287
:10009000C600400C4508F4004108031C7408C70062
:1000A0004608F4004208031C7408C8000030C90068
:1000B0004908F4003508391C7408CA008B138B1BDF
:1000C0005E2873180C283908B2004708B3004808A6
:1000D000B4004A0887003C08880083160C1483018A
:1000E00009000B130C11F3018B170310350CB6002C
:1000F0003508F4003608321C7408B700FF30B80029
:100100000030B90033083805BA0034083905BB009F
:100110000030BC003C08F4003708321C7408BD00F5
:100120008B138B1B9028731873283708B5003D0874
:1001300087003A08880073140B1709003208013A47
:10014000B600FF30B7005830B8000230B9000030B8
:10015000BA000030BB00360C3A08F4003808031C23
:100160007408BC003B08F4003908031C7408BD0087
:10017000FF30BE000030BF003C083E05C0003D0817
:100180003F05C1000030C2004208F4003708361CA9
:100190007408C3008B103608B2003708B5003C085D
:1001A000B3003D08B400430887004008880073147A
:1001B0000900FF30B50083168701880105308C00E7
:0A01C00083010B160B178B17E428C0
:02400E003A3F37
:00000001FF
";

/// Its map.
pub const LAMP_MAP: &str = "\
efrp map 1
event Tick TMR1 1 open 0063 commit 006C
event Dim CCP1 2 open 0095 commit 009B
event Button INT 3 open 00CB commit 00D7
state on bool 032
state left u16 033 034
state level u8 035
output PORTC
output PORTD
ready 00E4
regs 003-003
regs 007-008
regs 00B-00C
regs 032-04A
regs 071-07F
regs 087-088
regs 08C-08C
report depth 3 ram 25 words 229 settle 4364
";

/// The button; a tick, whose work the dimmer interrupts.
pub const LAMP_SCRIPT: &str = "\
# The button; a tick, whose work the dimmer interrupts.
at 1000 INT
at 2000 TMR1
at 2030 CCP1
steps 2300
";

/// The waves of the run: those that the program `efrp_wave` is known to put.
pub const LAMP_WAVES: &str = "\
$comment A unit of time is one step: an instruction or a taking. It is no measure of seconds. $end
$timescale 1 us $end
$scope module efrp $end
$scope module events $end
$scope module Tick $end
$var wire 1 l7 latch $end
$var wire 1 r7 run $end
$var wire 1 w7 window $end
$upscope $end
$scope module Dim $end
$var wire 1 l5 latch $end
$var wire 1 r5 run $end
$var wire 1 w5 window $end
$upscope $end
$scope module Button $end
$var wire 1 l1 latch $end
$var wire 1 r1 run $end
$var wire 1 w1 window $end
$upscope $end
$upscope $end
$scope module ports $end
$var wire 8 p2 PORTC $end
$var wire 8 p3 PORTD $end
$upscope $end
$scope module states $end
$var wire 1 t50 on $end
$var wire 16 v51.52 left $end
$var wire 8 u53 level $end
$upscope $end
$var wire 4 level level $end
$var wire 8 depth depth $end
$upscope $end
$enddefinitions $end
#0
$dumpvars
0l7
0r7
0w7
0l5
0r5
0w5
0l1
0r1
0w1
bx p2
bx p3
0t50
b0 v51.52
b0 u53
b0 depth
b0 level
$end
#6
b11111111 u53
#1001
1l1
b1 depth
#1045
0l1
1r1
b11 level
#1046
1w1
#1047
1t50
#1051
b1011000 v51.52
#1053
b1001011000 v51.52
#1055
b11111111 p2
#1057
b1011000 p3
#1058
0r1
0w1
b0 level
#1059
b0 depth
#2001
1l7
b1 depth
#2007
0l7
1r7
b1 level
#2031
1l5
b10 depth
#2036
0l5
1r5
b10 level
#2067
1w5
#2068
b1111111 u53
#2070
b1111111 p2
#2073
0r5
0w5
b1 level
#2075
b1 depth
#2219
1w7
#2222
b1001010111 v51.52
#2228
0r7
0w7
b0 level
#2232
b0 depth
#2300
";
