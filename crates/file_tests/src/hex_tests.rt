// Images are written and read back, and each fault of a file is told.
ghost use Rattle.std.specs.Prelude.{◌≡◌, ◌<◌, IfOk, length};

use frp_tree::List;
use hex_file::{Aside, HexFault, Image, Word, read, write};
use std::alloc::{AllocError, Global};
use std::test::Fail;

// The jump to itself at 0, and a configuration word.
const SMALL: &[u8; 60] = b":020000040000FA\n:020000000028D6\n:02400E003A3F37\n:00000001FF\n";

// Whether a text means that image.
fn is_small(alloc: Global, text: &[u8]) -> Result<bool, HexFault>
    requires { length text.now < 100 }
{
    let image = read(alloc, text)?;
    let word = Word {
        address: 0,
        word: 0x2800,
    };
    Ok(
        image.words.as_slice() == [word].as_slice()
            && image.config == Some(0x3F3A)
            && image.aside.len() == 0,
    )
}

#[test]
fn either_case_and_any_order(rt: HostRuntime) -> Result<(), Fail> {
    assert!(rt; is_small(rt.alloc(), SMALL)?);
    let lower = b":020000040000fa\r\n:020000000028d6\r\n:02400e003a3f37\r\n:00000001ff\r\n";
    assert!(rt; is_small(rt.alloc(), lower)?);
    let others = b"\n:02400E003A3F37\n\r\n:020000000028D6\n:020000020000FC\n:00000001FF";
    assert!(rt; is_small(rt.alloc(), others)?);
    Ok(())
}

// Start addresses are skipped, the top two bits dropped, and a byte that isn't given is FFh.
#[test]
fn unusual_records(rt: HostRuntime) -> Result<(), Fail> {
    let text =
        b":01400F003F71\r\n:014000005a65\n:0400000300001234B3\n:0400000500001234B1\n:0100050028D2\n:0100050028d2\n:020000000CF002\n:00123401B9";
    let image = read(rt.alloc(), text)?;
    let words = [
        Word {
            address: 0,
            word: 0x300C,
        },
        Word {
            address: 2,
            word: 0x28FF,
        },
    ];
    assert_eq!(rt; image.words.as_slice(), words.as_slice());
    assert_eq!(rt; image.config, Some(0x3FFF));
    let aside = [Aside {
        address: 0x4000,
        byte: 0x5A,
    }];
    assert_eq!(rt; image.aside.as_slice(), aside.as_slice());
    Ok(())
}

// Faulty texts by their first fault. In the clash only the top two bits of the word differ.
const FAULTS: &[(HexFault, &[&[u8]])] = &[
    (HexFault::BadChar(1), &[b":0000000GFF", b":00000001FF\r"]),
    (HexFault::BadChar(3), &[b"\n\r\n00000001FF"]),
    (
        HexFault::BadLength(1),
        &[
            b":00000001FF0",
            b":00000000",
            b":0000000100FF",
            b":0100000100FE",
            b":0100000401FA",
        ],
    ),
    (
        HexFault::BadSum {
            line: 2,
            got: 0x36,
            want: 0x37,
        },
        &[b"\n:02400E003A3F36\n:x"],
    ),
    (HexFault::BadType { line: 1, kind: 6 }, &[b":00000006FA"]),
    (
        HexFault::OutOfRange(1),
        &[b":020000040001F9", b":02FFFF00000000"],
    ),
    (
        HexFault::Clash {
            line: 2,
            address: 1,
        },
        &[b":020000000028D6\n:02000000006896"],
    ),
    (HexFault::AfterEnd(3), &[b":00000001FF\n\n:00000001FF"]),
    (HexFault::NoEnd, &[b"", b":020000000028D6\n"]),
];

// The fault of a short text.
fn fault(alloc: Global, text: &[u8]) -> Option<HexFault> {
    if text.len() <= 100 {
        read(alloc, text).err()
    } else {
        None
    }
}

// The number of the first of these texts, from 0 on, that has another fault than this.
fn other_fault(alloc: Global, wanted: HexFault, texts: &[&[u8]]) -> Option<usize> {
    texts
        .iter()
        .position(|text| fault(alloc, text) != Some(wanted))
}

#[test]
fn faults_of_texts(rt: HostRuntime) {
    for (wanted, texts) in FAULTS {
        assert_eq!(rt; other_fault(rt.alloc(), *wanted, texts), None, "{wanted:?}");
    }
}

// The last line feed may be missing.
#[test]
fn cut_at_each_byte(rt: HostRuntime) {
    for end in 0..SMALL.len() {
        assert_eq!(rt;
            fault(rt.alloc(), &SMALL[..end]).is_none(),
            end >= 59,
            "{end}"
        );
    }
}

#[test]
fn changed_at_each_byte(rt: HostRuntime) {
    let mut text = *SMALL;
    for place in 0..60 {
        let kept = text[place];
        text[place] = 0xFF;
        let line = 1 + place as u32 / 16;
        assert_eq!(rt;
            fault(rt.alloc(), &text),
            Some(HexFault::BadChar(line)),
            "{place}"
        );
        text[place] = kept;
    }
}

fn image(alloc: Global, words: &[Word], config: Option<u16>) -> Result<Image, AllocError>
    ensures words { IfOk result (λ image. image.words ≡ words.now) }
    ensures config { IfOk result (λ image. image.config ≡ config) }
{
    Ok(Image {
        words: List::from_vec(words.to_vec(alloc)?),
        config,
        aside: List::new(alloc),
    })
}

fn at(address: u16, word: u16) -> Word
    ensures address { result.address ≡ address }
    ensures word { result.word ≡ word }
{
    Word { address, word }
}

#[test]
fn writes_one_word_and_configuration(rt: HostRuntime) -> Result<(), Fail> {
    let small = image(rt.alloc(), &[at(0, 0x2800)], Some(0x3F3A))?;
    assert_eq!(rt; write(rt.alloc(), &small)?.as_slice(), SMALL.as_slice());
    Ok(())
}

// The text was made by srec_cat from the words' bytes.
#[test]
fn writes_a_gap_and_a_long_run(rt: HostRuntime) -> Result<(), Fail> {
    let words = [
        at(6, 0x0186),
        at(7, 0x0782),
        at(8, 0x0064),
        at(16, 0x1283),
        at(17, 0x0185),
        at(18, 0x3000),
        at(19, 0x008B),
        at(20, 0x138B),
        at(21, 0x2FFF),
        at(22, 0x3F00),
        at(23, 0x0103),
        at(24, 0x0009),
    ];
    let small = image(rt.alloc(), &words, None)?;
    let text =
        b":020000040000FA\n:06000C008601820764007A\n:100020008312850100308B008B13FF2F003F0301EB\n:020030000900C5\n:00000001FF\n";
    assert_eq!(rt; write(rt.alloc(), &small)?.as_slice(), text.as_slice());
    Ok(())
}
