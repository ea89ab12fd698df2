//! Laws of the text of scripts and events, independent of the reader.

ghost use Rattle.script.specs.Laws.{LinesDetermineEvents, TextsDetermineScripts};
ghost use Rattle.script.specs.Laws.{ScriptsHaveNoFault, TextsHaveOneFault, SettingsHaveNoFault, SettingsHaveOneFault};

/// A text is that of at most one script: two scripts that differ in their settings or their events
/// have different texts. It does nothing: its contract is the law.
pub fn texts_determine_scripts()
    ensures { TextsDetermineScripts }
{}

/// A line is that of at most one event. It does nothing: its contract is the law.
pub fn lines_determine_events()
    ensures { LinesDetermineEvents }
{}

/// No text is both a script and faulty, and a faulty text has one fault: one first faulty line, for
/// one reason. It does nothing: its contract is the law.
pub fn texts_have_one_fault()
    ensures none { ScriptsHaveNoFault }
    ensures one { TextsHaveOneFault }
{}

/// The same for texts that have settings alone. It does nothing: its contract is the law.
pub fn settings_have_one_fault()
    ensures none { SettingsHaveNoFault }
    ensures one { SettingsHaveOneFault }
{}
