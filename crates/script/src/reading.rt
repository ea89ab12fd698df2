//! Reading a script: its settings, and then its events.

ghost use Rattle.std.specs.Prelude.{◌≡◌, ◌∷◌, ◌++◌, ◌<◌, ◌≤◌, [], ◌==◌, true, false, length, position, IfOk, IfErr};
ghost use Rattle.std.specs.Prelude.{MatchOption, MatchResult};
ghost use Rattle.std.specs.List.{AllByRecursion};
ghost use Rattle.rows.specs.Limits.{workers_max, replicas_max};
ghost use Rattle.script.specs.Text.{is_text};
ghost use Rattle.script.specs.Events.{IsPossible};
ghost use Rattle.script.specs.EventLines.{IsEventLine, IsEventFault, begins_with, first_word, setting_names};
ghost use Rattle.script.specs.Settings.{AreSettings, IsSetup, is_ready};
ghost use Rattle.script.specs.Scripts.{AreEvents, IsLineFault, IsScript, IsScriptFault, IsSettingsText, IsSettingsFault, lines_of, is_kept};
ghost use Rattle.script.specs.Inner.LineFaults.{OrMemory};
ghost use Rattle.script.specs.Inner.OneLine.{IsLineRead, IsSettingsLineFault};

use crate::event::Event;
use crate::event_reading::read_event;
use crate::faults::{LineFault, Reason, ScriptFault};
use crate::settings::{Settings, read_setting};
use crate::setup::Setup;
use crate::word_reading::is_text;
use std::alloc::Global;

/// The settings and events of a script. Each line ends with 0a, which the last one may lack; empty
/// lines and lines that begin with `#` are skipped.
///
/// Fails with the first faulty line and the reason, or with `Memory`.
pub fn read_script(alloc: Global, script: &[u8]) -> Result<(Setup, Vec<Event>), ScriptFault>
    ensures exact { MatchResult result (λ read. IsScript script.now read.0 read.1.items) (IsScriptFault script.now) }
    ensures possible { IfOk result (λ read. (0 < read.0.workers) × (read.0.workers ≤ workers_max) × (read.0.replicas ≤ replicas_max)
        × AllByRecursion (IsPossible read.0.workers read.0.replicas) read.1.items) }
{
    let mut settings = Settings::Nothing;
    let mut events = Vec::new(alloc);
    let mut line = 0;
    let mut rest = script;
    while !rest.is_empty() {
        let (bytes, after) = first_line(rest);
        rest = after;
        line += 1;
        settings = match read_line(alloc, settings, bytes, &mut events) {
            Ok(settings) => settings,
            Err(LineFault::Because(reason)) => return Err(ScriptFault::At { line, reason }),
            Err(LineFault::Memory) => return Err(ScriptFault::Memory),
        };
    }
    match setup_of(settings) {
        Some(setup) => Ok((setup, events)),
        None => Err(ScriptFault::At {
            line: line + 1,
            reason: Reason::BadSetting,
        }),
    }
}

/// The settings of a schema file, which contains nothing else. Its lines are those of a script.
///
/// Fails with the first faulty line and the reason, or with `Memory`; a line that is no setting is
/// a `BadSetting`, unless it is not text.
pub fn read_settings(alloc: Global, text: &[u8]) -> Result<Setup, ScriptFault>
    ensures { MatchResult result (IsSettingsText text.now) (IsSettingsFault text.now) }
{
    let mut settings = Settings::Nothing;
    let mut line = 0;
    let mut rest = text;
    while !rest.is_empty() {
        let (bytes, after) = first_line(rest);
        rest = after;
        line += 1;
        settings = match read_setting_line(alloc, settings, bytes) {
            Ok(settings) => settings,
            Err(LineFault::Because(reason)) => return Err(ScriptFault::At { line, reason }),
            Err(LineFault::Memory) => return Err(ScriptFault::Memory),
        };
    }
    match setup_of(settings) {
        Some(setup) => Ok(setup),
        None => Err(ScriptFault::At {
            line: line + 1,
            reason: Reason::BadSetting,
        }),
    }
}

/// The setup, if a table is set: then no setting is missing.
fn setup_of(settings: Settings) -> Option<Setup>
    ensures { MatchOption result (is_ready settings ≡ false) (λ setup. settings ≡ Settings.Ready setup) }
{
    match settings {
        Settings::Ready(setup) => Some(setup),
        Settings::Nothing => None,
        Settings::Workers(_) => None,
        Settings::Replicas { .. } => None,
    }
}

/// The bytes before the first 0a, and those after it; all of the bytes if there is no 0a.
fn first_line(bytes: &[u8]) -> (&[u8], &[u8])
    requires { 0 < length bytes.now }
    ensures parts { lines_of bytes.now ≡ result.0.now ∷ lines_of result.1.now }
    ensures shorter { length result.1.now < length bytes.now }
{
    match position_of(bytes, b'\n') {
        Some(end) => (&bytes[..end], &bytes[end + 1..]),
        None => (bytes, &[]),
    }
}

/// The first position of the byte.
fn position_of(bytes: &[u8], byte: u8) -> Option<usize>
    ensures { result ≡ position (λ other. other == byte) bytes.now }
{
    bytes.iter().position(|other| *other == byte)
}

/// Reads one line: a setting, or an event once the settings have a table. A skipped line leaves the
/// settings as they are.
fn read_line(
    alloc: Global,
    settings: Settings,
    line: &[u8],
    events: &mut Vec<Event>,
) -> Result<Settings, LineFault>
    requires settings { AreSettings settings }
    requires events { AreEvents settings events.old.items }
    ensures { MatchResult result (λ next. IsLineRead settings events.old.items line.now next events.new.items)
        (OrMemory (IsLineFault settings events.old.items line.now)) }
{
    if !is_text(line) {
        return Err(LineFault::Because(Reason::NotText));
    }
    if !is_kept(line) {
        return Ok(settings);
    }
    if let Settings::Ready(setup) = &settings {
        // After an event no line is a setting.
        if !events.is_empty() || !begins_as_setting(line) {
            return match add_event(alloc, setup, line, events) {
                Ok(()) => Ok(settings),
                Err(fault) => Err(fault),
            };
        }
    }
    read_setting(alloc, settings, line)
}

/// Reads the line of an event, and adds it to the end.
fn add_event(
    alloc: Global,
    setup: &Setup,
    line: &[u8],
    events: &mut Vec<Event>,
) -> Result<(), LineFault>
    ensures read { IfOk result (λ done.
        (event : Event) × IsEventLine setup.now line.now event × (events.new.items ≡ events.old.items ++ event ∷ [])) }
    ensures fault { IfErr result (OrMemory (IsEventFault setup.now line.now)) }
{
    let event = read_event(alloc, setup, line)?;
    if events.push(event).is_err() {
        return Err(LineFault::Memory);
    }
    Ok(())
}

/// Reads one line of a schema file: a setting. A skipped line leaves the settings as they are.
fn read_setting_line(alloc: Global, settings: Settings, line: &[u8]) -> Result<Settings, LineFault>
    requires { AreSettings settings }
    ensures { MatchResult result (λ next. IsLineRead settings [] line.now next []) (OrMemory (IsSettingsLineFault settings line.now)) }
{
    if !is_text(line) {
        return Err(LineFault::Because(Reason::NotText));
    }
    if !is_kept(line) {
        return Ok(settings);
    }
    read_setting(alloc, settings, line)
}

/// Whether a line is not skipped.
fn is_kept(line: &[u8]) -> bool
    ensures { result ≡ is_kept line.now }
{
    match line {
        [] => false,
        [first, ..] => *first != b'#',
    }
}

/// Whether a line begins as a setting.
fn begins_as_setting(line: &[u8]) -> bool
    ensures { result ≡ begins_with setting_names line.now }
{
    let first = first_word(line);
    first == b"workers".as_slice()
        || first == b"replicas".as_slice()
        || first == b"table".as_slice()
}

/// The part of a line before its first space; all of it if there is none.
fn first_word(line: &[u8]) -> &[u8]
    ensures { result.now ≡ first_word line.now }
{
    match position_of(line, b' ') {
        Some(end) => &line[..end],
        None => line,
    }
}
