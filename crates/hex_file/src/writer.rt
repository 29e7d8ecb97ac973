// The written form of an image.
ghost use Rattle.std.specs.Prelude.{◌≡◌, ◌<◌, ◌≤◌, ◌++◌, length, take, drop, All, IfOk, OnOk, string_bytes};
ghost use Rattle.std.specs.List.{flat_map};
ghost use Rattle.hex_file.specs.Written.{IsWritable, config_record, data_records, word_bytes, words_record, written};

use crate::images::{Image, Word};
use crate::records::{Kind, push_record};
use frp_tree::List;
use std::alloc::{AllocError, Global};

/// How many words of program memory one record holds at most.
const WORDS_PER_RECORD: usize = 8;

/// The byte address of the configuration word.
const CONFIG_ADDRESS: u16 = 0x400E;

/// The written form of an image: the record of the high address, the data records, the record of the
/// configuration word, where there is one, and the end record. Bytes aside aren't written. Words stand at
/// rising addresses below 8,192 and have 14 bits, as the configuration word has. An `Err` is out of memory.
#[tactic(auto, using(crate::proofs::RiseFacts::below_8192))]
pub fn write(alloc: Global, image: &Image) -> Result<List<u8>, AllocError>
    requires { IsWritable image.now }
    ensures { IfOk result (λ bytes. bytes ≡ written image.now) }
{
    let mut text = String::new(alloc);
    push_record(alloc, &mut text, Kind::LinearAddress, 0, &[0, 0])?;
    push_data(alloc, &mut text, image.words.as_slice())?;
    push_config(alloc, &mut text, image.config)?;
    push_record(alloc, &mut text, Kind::EndOfFile, 0, &[])?;
    Ok(List::from_vec(text.into_bytes()))
}

/// Appends the data records of these words.
fn push_data(alloc: Global, text: &mut String, words: &[Word]) -> Result<(), AllocError>
    requires { All (λ w. w.address < 8192) words.now }
    ensures { OnOk result (string_bytes text.new ≡ string_bytes text.old ++ data_records words.now) }
{
    let mut rest = words;
    while !rest.is_empty() {
        let (record, behind) = rest.split_at(record_len(rest));
        push_words(alloc, text, record)?;
        rest = behind;
    }
    Ok(())
}

/// How many words the next record takes: those at successive addresses from the first one on, at most eight.
fn record_len(words: &[Word]) -> usize
    requires some { 0 < length words.now }
    requires low { All (λ w. w.address < 8192) words.now }
    ensures some { 0 < result }
    ensures at_most_eight { result ≤ 8 }
    ensures within { result ≤ length words.now }
    ensures records { data_records words.now ≡ words_record (take result words.now) ++ data_records (drop result words.now) }
{
    let most = words.len().min(WORDS_PER_RECORD);
    let mut count = 1;
    while count < most && words[count].address == words[count - 1].address + 1 {
        count += 1;
    }
    count
}

/// Appends one data record, of one to eight words at successive addresses.
#[tactic(auto, using(crate::proofs::ByteFacts::length_words))]
fn push_words(alloc: Global, text: &mut String, words: &[Word]) -> Result<(), AllocError>
    requires some { 0 < length words.now }
    requires at_most_eight { length words.now ≤ 8 }
    requires low { All (λ w. w.address < 8192) words.now }
    ensures { OnOk result (string_bytes text.new ≡ string_bytes text.old ++ words_record words.now) }
{
    let data = data_bytes(alloc, words)?;
    push_record(alloc, text, Kind::Data, 2 * words[0].address, &data)
}

/// The bytes of these words, the low byte of each first.
fn data_bytes(alloc: Global, words: &[Word]) -> Result<Vec<u8>, AllocError>
    ensures { IfOk result (λ bytes. bytes.items ≡ flat_map (λ w. word_bytes w.word) words.now) }
{
    let mut bytes = Vec::new(alloc);
    for word in words {
        bytes.extend_from_slice(&word_bytes(word.word))?;
    }
    Ok(bytes)
}

/// A word's two bytes, the low byte first.
#[tactic(auto, using(crate::proofs::ByteFacts::le_word_bytes))]
fn word_bytes(word: u16) -> [u8; 2]
    ensures { result ≡ word_bytes word }
{
    word.to_le_bytes()
}

/// Appends the record of the configuration word, where there is one.
fn push_config(alloc: Global, text: &mut String, config: Option<u16>) -> Result<(), AllocError>
    ensures { OnOk result (string_bytes text.new ≡ string_bytes text.old ++ config_record config) }
{
    match config {
        Some(word) => push_record(alloc, text, Kind::Data, CONFIG_ADDRESS, &word_bytes(word)),
        None => Ok(()),
    }
}
