//! Requests of commands for people.

ghost use Rattle.std.specs.Prelude.{◌≡◌, [], IfOk, IfSome, IsTrue, MatchOption, None, Some, codes};
ghost use Rattle.change_text.specs.declared.options.RackRule.{RackRule as TheRule};
ghost use Rattle.clap.specs.Words.{first_of, found_of, rows_of};
ghost use Rattle.ringplan_command.specs.Command.{IsOfWord, IsTurnedAway};
ghost use Rattle.ringplan_command.specs.Makings.{HasNoRacks, MeansBack, MeansColor, MeansExit, MeansExtent, MeansKnown, MeansPicture, MeansRacks, MeansShape, MeansUnreadable, MeansWish, left_texts};
ghost use Rattle.ringplan_command.specs.Slots.{AreSlots};

use crate::command::{Format, Request, format_of};
use crate::counts::Count;
use crate::files::named;
use crate::help::{NO_COLOR, NO_DETOUR, NO_FORMAT, NO_RACKS, NO_RATE, NO_SLOT, NO_WINDOW};
use crate::naming::names_of;
use crate::reading::{is_set, number_of, text_of};
use crate::slots::slots_of;
use crate::word::Word;
use change_text::{Layout, Options, RackRule, Unreadable};
use clap::ArgMatches;
use plan_runs::Back;
use ringplan_request::{Color, Cut, Detour, Exit, Extent, Making, Picture, Shape, Statement, Wish};
use std::alloc::{AllocError, Global};

const MOST_ROUNDS: u32 = 1_000_000;

pub(crate) fn make_line(
    alloc: Global,
    options: &ArgMatches,
    word: Word,
) -> Result<Request, AllocError>
    ensures { IfOk result (IsOfWord word (rows_of (found_of options.now))) }
{
    match word {
        Word::Why => why_line(alloc, options),
        Word::Cert => Ok(Request::Make(Making::Cert, Options::new(alloc))),
        Word::After => Ok(Request::Make(Making::After, Options::new(alloc))),
        Word::Steps => steps_line(alloc, options),
        Word::Windows => windows_line(alloc, options),
        Word::Show => show_line(alloc, options),
        Word::Draw => draw_line(alloc, options),
        Word::Goal => goal_line(alloc, options),
        Word::Around => around_line(alloc, options),
    }
}

pub(crate) fn mistaken(alloc: Global, text: &[u8]) -> Result<Request, AllocError>
    ensures mistaken { IfOk result (λ line. (text : _) × (line ≡ Request.Mistaken text)) }
    ensures away { IfOk result IsTurnedAway }
{
    let text = Vec::from_slice(alloc, text)?;
    Ok(Request::Mistaken(text))
}

fn steps_line(alloc: Global, matches: &ArgMatches) -> Result<Request, AllocError>
    ensures { IfOk result (IsOfWord Word.Steps (rows_of (found_of matches.now))) }
{
    let Some(options) = known_of(alloc, matches)? else {
        return mistaken(alloc, NO_RACKS);
    };
    if is_set(matches, "moves") {
        return Ok(Request::Make(Making::Moves, options));
    }
    Ok(Request::Make(Making::Steps, options))
}

// None if the word is unknown.
fn color_of(options: &ArgMatches) -> Option<Color>
    ensures { IfSome result (MeansColor (first_of (codes "color") (rows_of (found_of options.now)))) }
{
    match text_of(options, "color") {
        None => Some(Color::Auto),
        Some(text) => color_named(text),
    }
}

fn color_named(text: &str) -> Option<Color>
    ensures { IfSome result (MeansColor (Some text.now)) }
{
    if text == "auto" {
        return Some(Color::Auto);
    }
    if text == "always" {
        return Some(Color::Always);
    }
    if text == "never" {
        return Some(Color::Never);
    }
    None
}

fn why_line(alloc: Global, options: &ArgMatches) -> Result<Request, AllocError>
    ensures { IfOk result (IsOfWord Word.Why (rows_of (found_of options.now))) }
{
    let Some(color) = color_of(options) else {
        return mistaken(alloc, NO_COLOR);
    };
    match format_of(options) {
        Format::Text => Ok(Request::Make(Making::Why(color), Options::new(alloc))),
        Format::Json => {
            let making = Making::State(Statement::Why);
            Ok(Request::Make(making, Options::new(alloc)))
        }
        Format::Unknown => mistaken(alloc, NO_FORMAT),
    }
}

// None if the racks are neither one character nor a known word.
fn known_of(alloc: Global, matches: &ArgMatches) -> Result<Option<Options>, AllocError>
    ensures { IfOk result (λ o. MatchOption o (HasNoRacks (rows_of (found_of matches.now))) (MeansKnown (rows_of (found_of matches.now)))) }
{
    let Some(racks) = racks_of(matches) else {
        return Ok(None);
    };
    let dead = names_of(alloc, matches, "dead")?;
    let layout_file = named(alloc, matches, "layout")?;
    Ok(Some(Options {
        dead,
        racks,
        layout: Layout::new(alloc),
        layout_file,
        unreadable: Unreadable::Refused,
        left: Vec::new(alloc),
    }))
}

fn show_line(alloc: Global, matches: &ArgMatches) -> Result<Request, AllocError>
    ensures { IfOk result (IsOfWord Word.Show (rows_of (found_of matches.now))) }
{
    let Some(options) = known_of(alloc, matches)? else {
        return mistaken(alloc, NO_RACKS);
    };
    let Some(color) = color_of(matches) else {
        return mistaken(alloc, NO_COLOR);
    };
    let rate = match number_of(matches, "rate", u32::MAX) {
        Count::Unnamed => None,
        Count::Many(rate) => Some(rate),
        Count::NoNumber => return mistaken(alloc, NO_RATE),
    };
    if rate.is_some() && options.layout_file.is_none() {
        return mistaken(alloc, NO_RATE);
    }
    let wish = Wish {
        shape: shape_of(matches),
        color,
        rate,
    };
    show_of(alloc, matches, wish, options)
}

fn show_of(
    alloc: Global,
    matches: &ArgMatches,
    wish: Wish,
    options: Options,
) -> Result<Request, AllocError>
    requires wish { MeansWish (rows_of (found_of matches.now)) wish }
    requires options { MeansKnown (rows_of (found_of matches.now)) options }
    ensures { IfOk result (IsOfWord Word.Show (rows_of (found_of matches.now))) }
{
    match format_of(matches) {
        Format::Text => Ok(Request::Make(Making::Show(wish), options)),
        Format::Json => Ok(Request::Make(Making::State(Statement::Show(wish)), options)),
        Format::Unknown => mistaken(alloc, NO_FORMAT),
    }
}

fn shape_of(options: &ArgMatches) -> Shape
    ensures { MeansShape (rows_of (found_of options.now)) result }
{
    if is_set(options, "all") {
        return Shape::Whole;
    }
    Shape::Short
}

fn draw_line(alloc: Global, matches: &ArgMatches) -> Result<Request, AllocError>
    ensures { IfOk result (IsOfWord Word.Draw (rows_of (found_of matches.now))) }
{
    let Some(options) = known_of(alloc, matches)? else {
        return mistaken(alloc, NO_RACKS);
    };
    Ok(Request::Make(Making::Draw(picture_of(matches)), options))
}

fn picture_of(options: &ArgMatches) -> Picture
    ensures { MeansPicture (rows_of (found_of options.now)) result }
{
    if is_set(options, "map") {
        return Picture::Map;
    }
    Picture::Rounds
}

// Rounds are needed; both numbers are from 1 to 1,000,000.
fn windows_line(alloc: Global, matches: &ArgMatches) -> Result<Request, AllocError>
    ensures { IfOk result (IsOfWord Word.Windows (rows_of (found_of matches.now))) }
{
    let Some(options) = known_of(alloc, matches)? else {
        return mistaken(alloc, NO_RACKS);
    };
    let rounds = match number_of(matches, "rounds", MOST_ROUNDS) {
        Count::Unnamed => 1,
        Count::Many(rounds) => rounds,
        Count::NoNumber => return mistaken(alloc, NO_WINDOW),
    };
    let only = match number_of(matches, "only", MOST_ROUNDS) {
        Count::Unnamed => None,
        Count::Many(only) => Some(only),
        Count::NoNumber => return mistaken(alloc, NO_WINDOW),
    };
    let cut = Cut { rounds, only };
    Ok(Request::Make(Making::Windows(cut), options))
}

fn goal_line(alloc: Global, matches: &ArgMatches) -> Result<Request, AllocError>
    ensures { IfOk result (IsOfWord Word.Goal (rows_of (found_of matches.now))) }
{
    let Some(mut options) = known_of(alloc, matches)? else {
        return mistaken(alloc, NO_RACKS);
    };
    options.unreadable = unreadable_of(matches);
    goal_of(alloc, matches, options)
}

fn goal_of(alloc: Global, matches: &ArgMatches, options: Options) -> Result<Request, AllocError>
    requires known { MeansKnown (rows_of (found_of matches.now)) options }
    requires unreadable { MeansUnreadable (rows_of (found_of matches.now)) options.unreadable }
    ensures { IfOk result (IsOfWord Word.Goal (rows_of (found_of matches.now))) }
{
    let exit = exit_of(matches);
    match format_of(matches) {
        Format::Text => Ok(Request::Make(Making::Goal(exit), options)),
        Format::Json => Ok(Request::Make(Making::State(Statement::Goal(exit)), options)),
        Format::Unknown => mistaken(alloc, NO_FORMAT),
    }
}

fn unreadable_of(matches: &ArgMatches) -> Unreadable
    ensures { MeansUnreadable (rows_of (found_of matches.now)) result }
{
    if is_set(matches, "partial") {
        return Unreadable::Left;
    }
    Unreadable::Refused
}

fn around_line(alloc: Global, matches: &ArgMatches) -> Result<Request, AllocError>
    ensures { IfOk result (IsOfWord Word.Around (rows_of (found_of matches.now))) }
{
    let Some(mut options) = known_of(alloc, matches)? else {
        return mistaken(alloc, NO_RACKS);
    };
    let Some(left) = slots_of(alloc, matches)? else {
        return mistaken(alloc, NO_SLOT);
    };
    options.left = left;
    around_of(alloc, matches, options)
}

// Refuses a line that changes nothing: without `--dead`, `--layout`, `--leave` and `--rest`.
fn around_of(alloc: Global, matches: &ArgMatches, options: Options) -> Result<Request, AllocError>
    requires known { MeansKnown (rows_of (found_of matches.now)) options }
    requires left { AreSlots (left_texts (rows_of (found_of matches.now))) options.left.items }
    ensures { IfOk result (IsOfWord Word.Around (rows_of (found_of matches.now))) }
{
    let detour = detour_of(matches);
    if names_nothing(&options, detour.extent) {
        return mistaken(alloc, NO_DETOUR);
    }
    Ok(Request::Make(Making::Around(detour), options))
}

fn names_nothing(options: &Options, extent: Extent) -> bool
    ensures { IsTrue result → (options.now.dead.items ≡ []) × (options.now.layout_file ≡ None) × (options.now.left.items ≡ []) × (extent ≡ Extent.Whole) }
{
    options.dead.is_empty()
        && options.layout_file.is_none()
        && options.left.is_empty()
        && extent == Extent::Whole
}

fn detour_of(matches: &ArgMatches) -> Detour
    ensures back { MeansBack (rows_of (found_of matches.now)) result.back }
    ensures extent { MeansExtent (rows_of (found_of matches.now)) result.extent }
    ensures shape { MeansShape (rows_of (found_of matches.now)) result.shape }
{
    Detour {
        back: back_of(matches),
        extent: extent_of(matches),
        shape: shape_of(matches),
    }
}

fn extent_of(matches: &ArgMatches) -> Extent
    ensures { MeansExtent (rows_of (found_of matches.now)) result }
{
    if is_set(matches, "rest") {
        return Extent::Begun;
    }
    Extent::Whole
}

fn back_of(matches: &ArgMatches) -> Back
    ensures { MeansBack (rows_of (found_of matches.now)) result }
{
    if is_set(matches, "back") {
        return Back::Allowed;
    }
    Back::Never
}

fn exit_of(matches: &ArgMatches) -> Exit
    ensures { MeansExit (rows_of (found_of matches.now)) result }
{
    if is_set(matches, "exit-code") {
        return Exit::Steps;
    }
    Exit::Printed
}

fn racks_of(options: &ArgMatches) -> Option<RackRule>
    ensures { MatchOption result (HasNoRacks (rows_of (found_of options.now)))
        (MeansRacks (first_of (codes "racks-behind") (rows_of (found_of options.now)))) }
{
    match text_of(options, "racks-behind") {
        None => Some(RackRule::Auto),
        Some(text) => racks_named(text),
    }
}

fn racks_named(text: &str) -> Option<RackRule>
    ensures { MatchOption result ((rule : TheRule) → MeansRacks (Some text.now) rule → ⊥) (MeansRacks (Some text.now)) }
{
    if text == "auto" {
        return Some(RackRule::Auto);
    }
    if text == "none" {
        return Some(RackRule::Off);
    }
    match text.as_bytes() {
        [byte] => Some(RackRule::Behind(*byte)),
        _ => None,
    }
}
