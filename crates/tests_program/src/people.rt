//! Output for people.

use ringplan_command::{CommandLine, Request, parse};
use ringplan_reports::{Report, report_bundle};
use std::alloc::Global;
use std::rt::Runtime;
use std::{fs, io, str};

/// Returns the word's command line. None if it names a bundle.
pub fn words_of(word: &str) -> Option<&'static [&'static str]> {
    let words: &'static [&'static str] = match word {
        "why" => &["ringplan", "why"],
        "show" => &["ringplan", "show"],
        "all" => &["ringplan", "show", "--all"],
        "draw" => &["ringplan", "draw"],
        "map" => &["ringplan", "draw", "--map"],
        "racks" => &["ringplan", "draw", "--map", "--racks-behind", "."],
        "steps" => &["ringplan", "steps"],
        "moves" => &["ringplan", "steps", "--moves"],
        "cert" => &["ringplan", "cert"],
        "after" => &["ringplan", "after"],
        "goal" => &["ringplan", "goal"],
        "dead" => &["ringplan", "goal", "--dead", "b"],
        "windows" => &["ringplan", "windows", "--rounds", "2"],
        "only" => &["ringplan", "windows", "--rounds", "1", "--only", "2"],
        _ => return None,
    };
    Some(words)
}

// The bundle's report, if memory suffices and the words are for people.
fn report_of(alloc: Global, words: &[&str], bundle: &[u8]) -> Option<Report> {
    let CommandLine { request, .. } = parse(alloc, words);
    match request {
        Request::Make(making, options) => report_bundle(alloc, making, &options, bundle).ok(),
        _ => None,
    }
}

/// Prints the command, a bundle's name, its standard output and error, and the exit status.
pub fn show_report<RT: Runtime + AllocGlobal>(
    rt: &RT,
    words: &[&str],
    name: &str,
) -> io::Result<()> {
    let path = format!(in rt.alloc(); "{name}.bundle")?;
    let bundle = fs::read(rt, path.as_str())?;
    let command = words.get(1).copied().unwrap_or("");
    match report_of(rt.alloc(), words, bundle.as_slice()) {
        Some(report) => {
            let output = str::from_utf8(report.output.as_slice()).unwrap_or("no text\n");
            let errors = str::from_utf8(report.errors.as_slice()).unwrap_or("no text\n");
            let status = report.status;
            print!(rt; "{command} {name}\n{output}{errors}{status}\n")
        }
        None => print!(rt; "{command} {name}\nno report\n"),
    }
}
