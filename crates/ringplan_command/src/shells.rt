//! Makes shell completions.

use crate::tree::command;
use clap::{Arg, Command};
use std::alloc::{AllocError, Global};
use texts::Words;

#[derive(Clone, Copy)]
pub(crate) enum Shell {
    Bash,
    Zsh,
    Fish,
}

impl Shell {
    pub(crate) fn named(name: &str) -> Option<Shell> {
        match name {
            "bash" => Some(Shell::Bash),
            "zsh" => Some(Shell::Zsh),
            "fish" => Some(Shell::Fish),
            _ => None,
        }
    }
}

const SHELLS: &[u8] = b"bash zsh fish";

pub(crate) fn completions(alloc: Global, shell: Shell) -> Result<Vec<u8>, AllocError> {
    let mut program = command(alloc)?;
    program.build()?;
    script(alloc, shell, &program)
}

fn script(alloc: Global, shell: Shell, program: &Command) -> Result<Vec<u8>, AllocError> {
    let mut out = Words::new(alloc);
    match shell {
        Shell::Bash => push_bash(&mut out, program),
        Shell::Zsh => push_zsh(&mut out, program),
        Shell::Fish => push_fish(&mut out, program),
    }
    match out.end() {
        Ok(text) => Ok(text),
        Err(_) => Err(AllocError),
    }
}

// ---- commands and arguments

fn names_file(arg: &Arg) -> bool {
    matches!(arg.get_id(), "file" | "output" | "layout")
}

fn is_valued(arg: &Arg) -> bool {
    !arg.is_positional() && arg.get_action().takes_values()
}

fn has_argument(command: &Command, id: &str) -> bool {
    for arg in command.get_arguments() {
        if arg.get_id() == id {
            return true;
        }
    }
    false
}

fn push_letter(out: &mut Words, arg: &Arg) {
    if let Some(short) = arg.get_short() {
        out.byte(u8::try_from(u32::from(short)).unwrap_or(b'?'));
    }
}

fn push_flags(out: &mut Words, arg: &Arg, between: &[u8]) {
    if arg.get_short().is_some() {
        out.byte(b'-');
        push_letter(out, arg);
        out.text(if arg.get_long().is_some() {
            between
        } else {
            b""
        });
    }
    if let Some(long) = arg.get_long() {
        out.fill(b"--@", &[long.as_bytes()], &[]);
    }
}

// Adds possible first arguments: commands, or shells.
fn push_choices<'a>(out: &mut Words, program: &Command<'a>, command: &Command<'a>) {
    if matches!(command.get_name(), "ringplan" | "help") {
        for sub in program.get_subcommands() {
            out.fill(b" @", &[sub.get_name().as_bytes()], &[]);
        }
    }
    if has_argument(command, "shell") {
        out.fill(b" @", &[SHELLS], &[]);
    }
}

// Adds a single-quoted text. Quotes become `quote`, and these marks get a backslash.
fn push_quoted(out: &mut Words, text: Option<&str>, quote: &[u8], marks: &[u8]) {
    for byte in text.unwrap_or("").as_bytes() {
        if *byte == b'\'' {
            out.text(quote);
        } else {
            if marks.contains(byte) {
                out.byte(b'\\');
            }
            out.byte(*byte);
        }
    }
}

// ---- bash

fn push_bash_words<'a>(out: &mut Words, program: &Command<'a>, command: &Command<'a>) {
    out.text(b"words='");
    push_choices(out, program, command);
    for arg in command.get_arguments() {
        if !arg.is_positional() {
            out.byte(b' ');
            push_flags(out, arg, b" ");
        }
    }
    out.byte(b'\'');
}

fn push_bash_value(out: &mut Words, arg: &Arg) {
    let action: &[u8] = if names_file(arg) {
        b") files=1 ;;\n"
    } else {
        b") return ;;\n"
    };
    out.text(b"                    ");
    push_flags(out, arg, b"|");
    out.text(action);
}

fn push_bash_command<'a>(out: &mut Words, program: &Command<'a>, command: &Command<'a>) {
    out.fill(
        b"            @)\n                case $previous in\n",
        &[command.get_name().as_bytes()],
        &[],
    );
    for arg in command.get_arguments() {
        if is_valued(arg) {
            push_bash_value(out, arg);
        }
    }
    out.text(b"                    *) ");
    push_bash_words(out, program, command);
    if has_argument(command, "file") {
        out.text(b" files=1");
    }
    out.text(b" ;;\n                esac ;;\n");
}

fn push_bash(out: &mut Words, program: &Command) {
    out.text(BASH_BEGIN);
    push_bash_words(out, program, program);
    out.text(b"\n    else\n        case ${COMP_WORDS[1]} in\n");
    for command in program.get_subcommands() {
        push_bash_command(out, program, command);
    }
    out.text(BASH_END);
}

const BASH_BEGIN: &[u8] = b"\
_ringplan() {
    local current=${COMP_WORDS[COMP_CWORD]} previous=${COMP_WORDS[COMP_CWORD-1]} words= files=
    COMPREPLY=()
    if [[ $COMP_CWORD -eq 1 ]]; then
        ";

const BASH_END: &[u8] = b"        esac
    fi
    if [[ -n $files && $current != -* ]]; then
        local IFS=$'\\n'
        compopt -o filenames 2> /dev/null
        COMPREPLY=($(compgen -f -- \"$current\"))
    else
        COMPREPLY=($(compgen -W \"$words\" -- \"$current\"))
    fi
}
complete -F _ringplan ringplan
";

// ---- zsh

fn push_zsh_text(out: &mut Words, text: Option<&str>) {
    push_quoted(out, text, b"'\\''", b"[]:\\");
}

fn push_zsh_option(out: &mut Words, arg: &Arg) {
    out.byte(b'[');
    push_zsh_text(out, arg.get_help());
    out.byte(b']');
    if names_file(arg) {
        out.text(b":file:_files");
    } else if is_valued(arg) {
        out.text(b":value: ");
    }
    out.byte(b'\'');
}

fn push_zsh_names(out: &mut Words, arg: &Arg) {
    if arg.get_short().is_some() {
        out.text(ZSH_OPTION);
        out.byte(b'-');
        push_letter(out, arg);
        push_zsh_option(out, arg);
    }
    if let Some(long) = arg.get_long() {
        out.fill(b"@--@", &[ZSH_OPTION, long.as_bytes()], &[]);
        push_zsh_option(out, arg);
    }
}

fn push_zsh_command<'a>(out: &mut Words, program: &Command<'a>, command: &Command<'a>) {
    out.fill(
        b"        @)\n            _arguments",
        &[command.get_name().as_bytes()],
        &[],
    );
    for arg in command.get_arguments() {
        if !arg.is_positional() {
            push_zsh_names(out, arg);
        }
    }
    if has_argument(command, "file") {
        out.text(b" \\\n                '*:file:_files'");
    } else {
        out.text(b" \\\n                ':word:(");
        push_choices(out, program, command);
        out.text(b")'");
    }
    out.text(b" ;;\n");
}

fn push_zsh(out: &mut Words, program: &Command) {
    out.text(ZSH_BEGIN);
    for command in program.get_subcommands() {
        out.fill(b"            '@:", &[command.get_name().as_bytes()], &[]);
        push_zsh_text(out, command.get_about());
        out.text(b"'\n");
    }
    out.text(ZSH_MIDDLE);
    for command in program.get_subcommands() {
        push_zsh_command(out, program, command);
    }
    out.text(ZSH_END);
}

// For an option that may be repeated.
const ZSH_OPTION: &[u8] = b" \\\n                '*";

const ZSH_BEGIN: &[u8] = b"\
#compdef ringplan
_ringplan() {
    if (( CURRENT == 2 )); then
        local -a commands=(
";

const ZSH_MIDDLE: &[u8] = b"        )
        _describe command commands
        return
    fi
    local command=$words[2]
    shift words
    (( CURRENT-- ))
    case $command in
";

const ZSH_END: &[u8] = b"    esac
}
if [[ $funcstack[1] == _ringplan ]]; then
    _ringplan \"$@\"
else
    compdef _ringplan ringplan
fi
";

// ---- fish

fn push_fish_text(out: &mut Words, text: Option<&str>) {
    out.text(b" -d '");
    push_quoted(out, text, b"\\'", b"\\");
    out.text(b"'\n");
}

fn push_fish_begin(out: &mut Words, command: &Command) {
    out.fill(
        b"complete -c ringplan -n '__fish_seen_subcommand_from @'",
        &[command.get_name().as_bytes()],
        &[],
    );
}

fn push_fish_option(out: &mut Words, arg: &Arg) {
    if arg.get_short().is_some() {
        out.text(b" -s ");
        push_letter(out, arg);
    }
    if let Some(long) = arg.get_long() {
        out.fill(b" -l @", &[long.as_bytes()], &[]);
    }
    if names_file(arg) {
        out.text(b" -r -F");
    } else if is_valued(arg) {
        out.text(b" -x");
    }
    push_fish_text(out, arg.get_help());
}

fn push_fish_command<'a>(out: &mut Words, program: &Command<'a>, command: &Command<'a>) {
    for arg in command.get_arguments() {
        if !arg.is_positional() {
            push_fish_begin(out, command);
            push_fish_option(out, arg);
        }
    }
    if !has_argument(command, "file") {
        push_fish_begin(out, command);
        out.text(b" -f -a '");
        push_choices(out, program, command);
        out.text(b"'\n");
    }
}

fn push_fish(out: &mut Words, program: &Command) {
    for command in program.get_subcommands() {
        out.fill(
            b"complete -c ringplan -n __fish_use_subcommand -f -a @",
            &[command.get_name().as_bytes()],
            &[],
        );
        push_fish_text(out, command.get_about());
    }
    for command in program.get_subcommands() {
        push_fish_command(out, program, command);
    }
}
