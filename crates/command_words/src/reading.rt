//! The options and the names of the words.
ghost use Rattle.std.specs.Prelude.{◌≡◌, ◌≢◌, ◌<◌, ◌^◌, [], Err, IfOk, IsUtf8, map};
ghost use Rattle.std.specs.List.{All};
ghost use Rattle.clap.specs.Words.{fault_of as clap_fault_of, found_of, kind_of, matches_of as clap_matches_of, rows_of};
ghost use Rattle.command_words.specs.Words.{Given, Reads, most_of, nothing_given};
ghost use Rattle.command_words.specs.Inside.Rules.{app};
ghost use Rattle.command_words.specs.Inside.Found.{HasNoNumber, OptionsIn, names_found, setting_name, value_found};
ghost use Rattle.command_words.specs.Inside.Seen.{seen};

use crate::command::command;
use crate::numbers::number_up_to;
use crate::{Options, Program, Setting, WordsFault};
use clap::error::ErrorKind;
use clap::{ArgMatches, Error};
use std::alloc::{AllocError, Global};
use text_names::Text;

/// The options and the names of the words.
#[derive(Drop)]
pub struct GivenWords<'a> {
    pub options: Options,
    pub names: Vec<&'a str>,
}

/// The words as `clap` takes them.
pub fn texts_of<'a>(alloc: Global, words: &'a [Text]) -> Result<Vec<&'a str>, AllocError>
    ensures same { IfOk result (λ texts. map (λ text. text.now) texts.items ≡ words.entry.now) }
    ensures utf8 { IfOk result (λ texts. All IsUtf8 (map (λ text. text.now) texts.items)) }
{
    let mut texts = Vec::new(alloc);
    for word in words {
        texts.push(word.as_str())?;
    }
    Ok(texts)
}

// Why `clap` refused the words.
fn fault_of(error: &Error) -> WordsFault
    ensures { result ≡ WordsFault.Usage → kind_of error.now ≢ ErrorKind.OutOfMemory }
{
    match error.kind() {
        ErrorKind::OutOfMemory => WordsFault::OutOfMemory,
        _ => WordsFault::Usage,
    }
}

// What `clap` finds in the words.
fn matches_of<'a>(
    alloc: Global,
    program: Program,
    words: &'a [&'a str],
) -> Result<ArgMatches<'a>, WordsFault>
    ensures ok { let texts = map (λ word. word.now) words.entry.now in IfOk result (λ matches.
        (clap_fault_of (app program) texts ≡ [])
        × (rows_of (found_of matches) ≡ clap_matches_of (app program) texts)) }
    ensures err { result ≡ Err WordsFault.Usage
        → clap_fault_of (app program) (map (λ word. word.now) words.entry.now) ≢ [] }
{
    let Ok(command) = command(alloc, program) else {
        return Err(WordsFault::OutOfMemory);
    };
    match command.try_get_matches_from(words) {
        Ok(matches) => Ok(matches),
        Err(error) => Err(fault_of(&error)),
    }
}

// The name and the greatest value of an option.
fn bounds(setting: Setting) -> (&'static str, u32)
    ensures name { result.0.now ≡ setting_name setting }
    ensures most { result.1 ≡ most_of setting }
    ensures low { result.1 < 2 ^ 20 }
{
    match setting {
        Setting::Workers => ("workers", 16),
        Setting::Made => ("made", 10_000),
    }
}

// The value of an option, if the words have it.
fn value_in(matches: &ArgMatches<'_>, setting: Setting) -> Result<Option<u32>, WordsFault>
    ensures ok { IfOk result (λ value. value_found (found_of matches.now) setting ≡ Some value) }
    ensures err { result ≡ Err WordsFault.Usage
        → value_found (found_of matches.now) setting ≡ None }
{
    let (name, most) = bounds(setting);
    let Some(text) = matches.get_str(name) else {
        return Ok(None);
    };
    match number_up_to(most, text.as_bytes()) {
        Some(value) => Ok(Some(value)),
        None => Err(WordsFault::Usage),
    }
}

fn options_in(matches: &ArgMatches<'_>) -> Result<Options, WordsFault>
    ensures ok { IfOk result (λ options. OptionsIn (found_of matches.now) options) }
    ensures err { result ≡ Err WordsFault.Usage → HasNoNumber (found_of matches.now) }
{
    Ok(Options {
        el_part: matches.get_flag("el-part"),
        refused: matches.get_flag("refused"),
        workers: value_in(matches, Setting::Workers)?,
        made: value_in(matches, Setting::Made)?,
    })
}

// The names, in the order of the words.
fn names_in<'a>(alloc: Global, matches: &ArgMatches<'a>) -> Result<Vec<&'a str>, AllocError>
    ensures { IfOk result (λ names.
        map (λ name. name.now) names.items ≡ names_found (found_of matches.now)) }
{
    match matches.get_strs("names") {
        Some(names) => names.to_vec(alloc),
        None => Ok(Vec::new(alloc)),
    }
}

/// Reads the words.
pub fn read_given<'a>(
    alloc: Global,
    program: Program,
    words: &'a [&'a str],
) -> Result<GivenWords<'a>, WordsFault>
    requires { All IsUtf8 (map (λ word. word.now) words.now) }
    ensures ok { let texts = map (λ word. word.now) words.entry.now in
        IfOk result (λ given. Reads program nothing_given texts (seen given)) }
    ensures err { let texts = map (λ word. word.now) words.entry.now in
        result ≡ Err WordsFault.Usage → (given : Given) → ¬ Reads program nothing_given texts given }
{
    let matches = match matches_of(alloc, program, words) {
        Ok(matches) => matches,
        Err(fault) => return Err(fault),
    };
    let options = match options_in(&matches) {
        Ok(options) => options,
        Err(fault) => return Err(fault),
    };
    let Ok(names) = names_in(alloc, &matches) else {
        return Err(WordsFault::OutOfMemory);
    };
    Ok(GivenWords { options, names })
}
