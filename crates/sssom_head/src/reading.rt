//! A header, line by line.

ghost use Rattle.std.specs.Prelude.{◌≡◌};
ghost use Rattle.sssom_head.specs.Contents.{indentation};
ghost use Rattle.sssom_head.specs.HeaderSteps.{has_indentation, entry_of, with_entry, other_line, map_line, step};
ghost use Rattle.sssom_head.specs.Inside.HeadSteps.{IsStep};
ghost use Rattle.text_names.specs.Prefixes.{Prefixes};

use crate::content::{indentation, is_blank, is_empty_map, map_text};
use crate::entry::entry_of;
use crate::{HeadFault, MapPlace};
use text_names::{PrefixFault, PrefixMap};

/// Takes in the line with this number and content.
pub fn take_line(
    line: u64,
    place: MapPlace,
    prefixes: &mut PrefixMap,
    content: &[u8],
) -> Result<MapPlace, HeadFault>
    ensures { IsStep (step line (record { place = place; prefixes = prefixes.old }) content.now)
        result prefixes.new }
{
    match map_text(content) {
        Some(text) => map_line(line, place, content, text),
        None => other_line(line, place, prefixes, content),
    }
}

// A line with which a map may begin, with this text after the colon.
fn map_line(line: u64, place: MapPlace, content: &[u8], text: &[u8]) -> Result<MapPlace, HeadFault>
    ensures { (prefixes : Prefixes) →
        IsStep (map_line line place prefixes content.now text.now) result prefixes }
{
    if place != MapPlace::Before {
        return Err(HeadFault::MapForm { line });
    }
    if text.is_empty() {
        return Ok(MapPlace::Inside {
            map: indentation(content),
            entries: None,
        });
    }
    if is_empty_map(text) {
        Ok(MapPlace::Past)
    } else {
        Err(HeadFault::MapForm { line })
    }
}

// Any other line.
fn other_line(
    line: u64,
    place: MapPlace,
    prefixes: &mut PrefixMap,
    content: &[u8],
) -> Result<MapPlace, HeadFault>
    ensures { IsStep (other_line line place prefixes.old content.now) result prefixes.new }
{
    let MapPlace::Inside { map, entries } = place else {
        return Ok(place);
    };
    if is_blank(content) {
        return Ok(place);
    }
    if indentation(content) <= map {
        return Ok(MapPlace::Past);
    }
    if has_indentation(entries, indentation(content)) {
        with_entry(line, map, prefixes, content)
    } else {
        Err(HeadFault::MapForm { line })
    }
}

fn has_indentation(entries: Option<usize>, indentation: usize) -> bool
    ensures { result ≡ has_indentation entries indentation }
{
    match entries {
        Some(entries) => entries == indentation,
        None => true,
    }
}

// A line in the place of an entry.
fn with_entry(
    line: u64,
    map: usize,
    prefixes: &mut PrefixMap,
    content: &[u8],
) -> Result<MapPlace, HeadFault>
    ensures { let read = with_entry line map (indentation content.now) in
        IsStep (read prefixes.old (entry_of content.now)) result prefixes.new }
{
    let Some((key, value)) = entry_of(content) else {
        return Err(HeadFault::MapForm { line });
    };
    match prefixes.declare(key, value) {
        Ok(()) => Ok(MapPlace::Inside {
            map,
            entries: Some(indentation(content)),
        }),
        Err(PrefixFault::OutOfMemory) => Err(HeadFault::OutOfMemory),
        Err(_) => Err(HeadFault::Again { line }),
    }
}
