//! All commands and options.

ghost use Rattle.std.specs.Prelude.{◌≡◌, false, codes, IfOk};
ghost use Rattle.clap.specs.Words.{App, rule_of, with_rule, with_subcommand};
ghost use Rattle.ringplan_command.specs.Tree.{IsApp, cut_option, draw_app, drive_app, flag_option, goal_app, job_app, known_app, ringplan, show_app};
ghost use Rattle.ringplan_command.specs.Tree.{around_app, changed_app, check_app, file_argument, list_option, output_option, rate_option, steps_app, text_option, top_app};
ghost use Rattle.ringplan_command.specs.Tree.{completions_app, guide_app, needed_argument, number_option, part_app, replay_app, watch_app, why_app, windows_app, words_app, workers_option};

use crate::help::{
    ABOUT, AFTER, AFTER_STREAMS, ALL, ALL_SLOTS, AROUND, AROUND_STREAMS, BACK, BUNDLE, CERT,
    CERT_STREAMS, CHECK, CHECK_STREAMS, COLOR, COMPLETIONS, COMPLETIONS_STREAMS, DEAD, DRAW,
    DRAW_STREAMS, DRIVE, DRIVE_STREAMS, DRIVERS, ENTRY, EVERY, EXIT_CODE, FILE, FORMAT, GOAL,
    GOAL_STREAMS, GONE, LAYOUT, LEAVE, MANUAL, MANUAL_STREAMS, MAP, MIGRATE, MIGRATE_STREAMS, MORE,
    MOVES, OF, ONLY, OUTPUT, PART, PART_NUMBER, PART_STREAMS, PARTIAL, PARTITIONS, PLAN,
    PLAN_STREAMS, PLAY, PLAY_STREAMS, RACKS, RATE, REPLAY, REPLAY_STREAMS, REPORT, REST, ROUNDS,
    SHELL, SHOW, SHOW_STREAMS, STEPS, STEPS_STREAMS, STREAMS, VERSION, WATCH, WATCH_STREAMS, WHY,
    WHY_STREAMS, WINDOWS, WINDOWS_STREAMS, WORKERS,
};
use clap::{Arg, ArgAction, Command, value_parser};
use std::alloc::{AllocError, Global};

type Made<'a> = Result<Command<'a>, AllocError>;

fn with_arg<'a>(command: Made<'a>, arg: Arg<'a>) -> Made<'a>
    requires { arg.global ≡ false }
    ensures { (app : App) → IfOk command.entry (IsApp app) → IfOk result (IsApp (with_rule app (rule_of arg.entry))) }
{
    command?.arg(arg)
}

fn with<'a>(command: Made<'a>, more: Made<'a>) -> Made<'a>
    ensures { (app sub : App) → IfOk command.entry (IsApp app) → IfOk more.entry (IsApp sub)
        → IfOk result (IsApp (with_subcommand app sub.top)) }
{
    command?.subcommand(more?)
}

fn flag<'a>(alloc: Global, word: &'a str, help: &'a str) -> Arg<'a>
    ensures rule { rule_of result ≡ flag_option word.entry.now }
    ensures local { result.global ≡ false }
{
    Arg::new(alloc, word)
        .long(word)
        .help(help)
        .action(ArgAction::SetTrue)
}

fn option<'a>(alloc: Global, word: &'a str, value: &'a str, help: &'a str) -> Arg<'a>
    ensures rule { rule_of result ≡ text_option word.entry.now }
    ensures local { result.global ≡ false }
{
    Arg::new(alloc, word)
        .long(word)
        .value_name(value)
        .help(help)
}

fn workers<'a>(alloc: Global, help: &'a str) -> Arg<'a>
    ensures rule { rule_of result ≡ workers_option }
    ensures local { result.global ≡ false }
{
    option(alloc, "workers", "K", help).value_parser(value_parser!(u32).range(1..=64))
}

fn of<'a>(alloc: Global) -> Arg<'a>
    ensures rule { rule_of result ≡ number_option (codes "of") 1 4096 }
    ensures local { result.global ≡ false }
{
    option(alloc, "of", "K", OF).value_parser(value_parser!(u32).range(1..=4_096))
}

fn part_number<'a>(alloc: Global) -> Arg<'a>
    ensures rule { rule_of result ≡ number_option (codes "part") 0 4095 }
    ensures local { result.global ≡ false }
{
    option(alloc, "part", "I", PART_NUMBER).value_parser(value_parser!(u32).range(0..=4_095))
}

fn entry<'a>(alloc: Global) -> Arg<'a>
    ensures rule { rule_of result ≡ number_option (codes "map") 0 999999 }
    ensures local { result.global ≡ false }
{
    option(alloc, "map", "N", ENTRY).value_parser(value_parser!(u32).range(0..=999_999))
}

fn rate<'a>(alloc: Global) -> Arg<'a>
    ensures rule { rule_of result ≡ rate_option }
    ensures local { result.global ≡ false }
{
    option(alloc, "rate", "N", RATE).value_parser(value_parser!(u32).range(1..=4_294_967_295))
}

fn number<'a>(alloc: Global, word: &'a str, value: &'a str, help: &'a str) -> Arg<'a>
    ensures rule { rule_of result ≡ cut_option word.entry.now }
    ensures local { result.global ≡ false }
{
    option(alloc, word, value, help).value_parser(value_parser!(u32).range(1..=1_000_000))
}

fn file<'a>(alloc: Global) -> Arg<'a>
    ensures rule { rule_of result ≡ file_argument }
    ensures local { result.global ≡ false }
{
    Arg::new(alloc, "file")
        .value_name("FILE")
        .help(FILE)
        .action(ArgAction::Append)
}

fn dead<'a>(alloc: Global, help: &'a str) -> Arg<'a>
    ensures rule { rule_of result ≡ list_option (codes "dead") }
    ensures local { result.global ≡ false }
{
    option(alloc, "dead", "NODE", help).action(ArgAction::Append)
}

fn leave<'a>(alloc: Global) -> Arg<'a>
    ensures rule { rule_of result ≡ list_option (codes "leave") }
    ensures local { result.global ≡ false }
{
    option(alloc, "leave", "P.I", LEAVE).action(ArgAction::Append)
}

fn output<'a>(alloc: Global) -> Arg<'a>
    ensures rule { rule_of result ≡ output_option }
    ensures local { result.global ≡ false }
{
    option(alloc, "output", "FILE", OUTPUT).short('o')
}

fn job<'a>(alloc: Global, word: &'a str, about: &'a str, streams: &'a str) -> Made<'a>
    ensures { IfOk result (IsApp (job_app word.entry.now)) }
{
    let command = Command::new(alloc, word)
        .about(about)
        .after_help(MORE)
        .after_long_help(streams);
    with_arg(with_arg(Ok(command), file(alloc)), output(alloc))
}

// A subcommand that reads no bundle.
fn guide<'a>(alloc: Global, word: &'a str, about: &'a str, streams: &'a str) -> Made<'a>
    ensures { IfOk result (IsApp (guide_app word.entry.now)) }
{
    let command = Command::new(alloc, word)
        .about(about)
        .after_help(MORE)
        .after_long_help(streams);
    with_arg(Ok(command), output(alloc))
}

fn needed<'a>(alloc: Global, word: &'a str, value: &'a str, help: &'a str) -> Arg<'a>
    ensures rule { rule_of result ≡ needed_argument word.entry.now }
    ensures local { result.global ≡ false }
{
    Arg::new(alloc, word)
        .value_name(value)
        .help(help)
        .required(true)
}

fn completions<'a>(alloc: Global) -> Made<'a>
    ensures { IfOk result (IsApp completions_app) }
{
    let command = guide(alloc, "completions", COMPLETIONS, COMPLETIONS_STREAMS);
    with_arg(command, needed(alloc, "shell", "SHELL", SHELL))
}

fn check<'a>(alloc: Global) -> Made<'a>
    ensures { IfOk result (IsApp check_app) }
{
    let command = job(alloc, "check", CHECK, CHECK_STREAMS);
    let command = with_arg(command, workers(alloc, WORKERS));
    with_arg(command, option(alloc, "format", "FORMAT", FORMAT))
}

fn replay<'a>(alloc: Global) -> Made<'a>
    ensures { IfOk result (IsApp replay_app) }
{
    let command = job(alloc, "replay", REPLAY, REPLAY_STREAMS);
    with_arg(command, option(alloc, "format", "FORMAT", FORMAT))
}

fn part<'a>(alloc: Global) -> Made<'a>
    ensures { IfOk result (IsApp part_app) }
{
    let command = job(alloc, "part", PART, PART_STREAMS);
    let command = with_arg(with_arg(command, of(alloc)), part_number(alloc));
    let command = with_arg(command, option(alloc, "partitions", "A-B", PARTITIONS));
    with_arg(command, entry(alloc))
}

fn every<'a>(alloc: Global) -> Arg<'a>
    ensures rule { rule_of result ≡ number_option (codes "every") 1 4294967295 }
    ensures local { result.global ≡ false }
{
    option(alloc, "every", "K", EVERY).value_parser(value_parser!(u32).range(1..=4_294_967_295))
}

fn watch<'a>(alloc: Global) -> Made<'a>
    ensures { IfOk result (IsApp watch_app) }
{
    let command = Command::new(alloc, "watch")
        .about(WATCH)
        .after_help(MORE)
        .after_long_help(WATCH_STREAMS);
    let command = with_arg(Ok(command), needed(alloc, "file", "FILE", BUNDLE));
    with_arg(command, every(alloc))
}

fn drive<'a>(alloc: Global) -> Made<'a>
    ensures { IfOk result (IsApp drive_app) }
{
    let command = job(alloc, "drive", DRIVE, DRIVE_STREAMS);
    let command = with_arg(command, workers(alloc, DRIVERS));
    with_arg(command, option(alloc, "format", "FORMAT", REPORT))
}

// A subcommand for people, in colours or JSON.
fn words<'a>(alloc: Global, word: &'a str, about: &'a str, streams: &'a str) -> Made<'a>
    ensures { IfOk result (IsApp (words_app word.entry.now)) }
{
    let command = job(alloc, word, about, streams);
    let command = with_arg(command, option(alloc, "format", "FORMAT", FORMAT));
    with_arg(command, option(alloc, "color", "WHEN", COLOR))
}

// Adds options on nodes and partitions; `help` says what a dead node is.
fn known<'a>(alloc: Global, command: Made<'a>, help: &'a str) -> Made<'a>
    ensures { (app : App) → IfOk command.entry (IsApp app) → IfOk result (IsApp (known_app app)) }
{
    let command = with_arg(command, option(alloc, "layout", "FILE", LAYOUT));
    let command = with_arg(command, dead(alloc, help));
    with_arg(command, option(alloc, "racks-behind", "C", RACKS))
}

fn why<'a>(alloc: Global) -> Made<'a>
    ensures { IfOk result (IsApp why_app) }
{
    words(alloc, "why", WHY, WHY_STREAMS)
}

fn show<'a>(alloc: Global) -> Made<'a>
    ensures { IfOk result (IsApp show_app) }
{
    let command = known(alloc, words(alloc, "show", SHOW, SHOW_STREAMS), DEAD);
    let command = with_arg(command, flag(alloc, "all", ALL));
    with_arg(command, rate(alloc))
}

fn draw<'a>(alloc: Global) -> Made<'a>
    ensures { IfOk result (IsApp draw_app) }
{
    let command = known(alloc, job(alloc, "draw", DRAW, DRAW_STREAMS), DEAD);
    with_arg(command, flag(alloc, "map", MAP))
}

fn steps<'a>(alloc: Global) -> Made<'a>
    ensures { IfOk result (IsApp steps_app) }
{
    let command = known(alloc, job(alloc, "steps", STEPS, STEPS_STREAMS), DEAD);
    with_arg(command, flag(alloc, "moves", MOVES))
}

fn windows<'a>(alloc: Global) -> Made<'a>
    ensures { IfOk result (IsApp windows_app) }
{
    let command = known(alloc, job(alloc, "windows", WINDOWS, WINDOWS_STREAMS), DEAD);
    let command = with_arg(command, number(alloc, "rounds", "K", ROUNDS).required(true));
    with_arg(command, number(alloc, "only", "W", ONLY))
}

fn goal<'a>(alloc: Global) -> Made<'a>
    ensures { IfOk result (IsApp goal_app) }
{
    let command = known(alloc, job(alloc, "goal", GOAL, GOAL_STREAMS), DEAD);
    let command = with_arg(command, flag(alloc, "partial", PARTIAL));
    let command = with_arg(command, flag(alloc, "exit-code", EXIT_CODE));
    with_arg(command, option(alloc, "format", "FORMAT", FORMAT))
}

// Adds options on changes of a begun plan.
fn changed<'a>(alloc: Global, command: Made<'a>) -> Made<'a>
    ensures { (app : App) → IfOk command.entry (IsApp app) → IfOk result (IsApp (changed_app app)) }
{
    let command = with_arg(command, leave(alloc));
    with_arg(command, flag(alloc, "rest", REST))
}

fn around<'a>(alloc: Global) -> Made<'a>
    ensures { IfOk result (IsApp around_app) }
{
    let command = known(alloc, job(alloc, "around", AROUND, AROUND_STREAMS), GONE);
    let command = with_arg(changed(alloc, command), flag(alloc, "back", BACK));
    with_arg(command, flag(alloc, "all", ALL_SLOTS))
}

// The program's own line, which needs a subcommand.
fn top<'a>(alloc: Global) -> Made<'a>
    ensures { IfOk result (IsApp top_app) }
{
    let command = Command::new(alloc, "ringplan")
        .about(ABOUT)
        .version(VERSION)
        .after_help(STREAMS)
        .subcommand_required(true);
    Ok(command)
}

pub(crate) fn command<'a>(alloc: Global) -> Result<Command<'a>, AllocError>
    ensures { IfOk result (IsApp ringplan) }
{
    let line = with(top(alloc), goal(alloc));
    let line = with(line, around(alloc));
    let line = with(line, show(alloc));
    let line = with(line, draw(alloc));
    let line = with(line, check(alloc));
    let line = with(line, why(alloc));
    let line = with(line, steps(alloc));
    let line = with(line, windows(alloc));
    let line = with(line, drive(alloc));
    let line = with(line, job(alloc, "play", PLAY, PLAY_STREAMS));
    let line = with(line, replay(alloc));
    let line = with(line, part(alloc));
    let line = with(line, watch(alloc));
    let line = with(line, job(alloc, "after", AFTER, AFTER_STREAMS));
    let line = with(line, job(alloc, "cert", CERT, CERT_STREAMS));
    let line = with(line, job(alloc, "plan", PLAN, PLAN_STREAMS));
    let line = with(line, job(alloc, "migrate", MIGRATE, MIGRATE_STREAMS));
    let line = with(line, completions(alloc));
    with(line, guide(alloc, "man", MANUAL, MANUAL_STREAMS))
}
