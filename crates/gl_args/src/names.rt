//! The tools and their options: one table, which says who has an option, how it is written, and whether it takes a
//! value.
ghost use Rattle.std.specs.Prelude.{◌≡◌, find, option_copied};
ghost use Rattle.gl_args.specs.Names.{tool_text, is_named, tool_named, is_tool_detect, finds_lines, requests_lines, prints_names, is_monitor, is_tool_get, is_tool_set, is_tool_watch, is_tool_notify, long_name, short_name, takes_value, has_option, is_long, is_short};

/// A tool, by its name.
#[derive(Clone, Copy)]
pub enum ToolName {
    /// gpiodetect.
    Detect,
    /// gpioinfo.
    Info,
    /// gpioget.
    Get,
    /// gpioset.
    Set,
    /// gpiomon.
    Watch,
    /// gpionotify.
    Notify,
}

/// All tools.
pub const TOOLS: [ToolName; 6] = [
    ToolName::Detect,
    ToolName::Info,
    ToolName::Get,
    ToolName::Set,
    ToolName::Watch,
    ToolName::Notify,
];

/// An option of a tool.
#[derive(Clone, Copy)]
pub enum OptionName {
    /// The chip.
    Chip,
    /// Each line word is a name, also one of digits.
    ByName,
    /// A name that is found twice is refused.
    Strict,
    /// Names are printed without quotes.
    Unquoted,
    /// Values are printed as digits.
    Numeric,
    /// The lines are active low.
    ActiveLow,
    /// The lines' bias.
    Bias,
    /// The outputs' drive.
    Drive,
    /// The debounce period.
    Period,
    /// The edges of gpiomon.
    Edges,
    /// The kind of change of gpionotify.
    Event,
    /// How many events end the tool.
    Count,
    /// How an event is printed.
    Format,
    /// Who requests the lines.
    Consumer,
}

/// All options.
pub const OPTIONS: [OptionName; 14] = [
    OptionName::Chip,
    OptionName::ByName,
    OptionName::Strict,
    OptionName::Unquoted,
    OptionName::Numeric,
    OptionName::ActiveLow,
    OptionName::Bias,
    OptionName::Drive,
    OptionName::Period,
    OptionName::Edges,
    OptionName::Event,
    OptionName::Count,
    OptionName::Format,
    OptionName::Consumer,
];

impl ToolName {
    /// The tool's name, as `gpioget`.
    pub fn text(self) -> &'static str
        ensures { result.now ≡ tool_text self }
    {
        match self {
            ToolName::Detect => "gpiodetect",
            ToolName::Info => "gpioinfo",
            ToolName::Get => "gpioget",
            ToolName::Set => "gpioset",
            ToolName::Watch => "gpiomon",
            ToolName::Notify => "gpionotify",
        }
    }

    /// The tool that a word names, if it names one.
    pub fn named(word: &[u8]) -> Option<ToolName>
        ensures { result ≡ tool_named word.now }
    {
        named_among(&TOOLS, word).copied()
    }

    /// Whether the tool takes lines.
    fn finds_lines(self) -> bool
        ensures { result ≡ finds_lines self }
    {
        match self {
            ToolName::Detect | ToolName::Info => false,
            ToolName::Get | ToolName::Set | ToolName::Watch | ToolName::Notify => true,
        }
    }

    /// Whether the tool requests its lines.
    pub fn requests_lines(self) -> bool
        ensures { result ≡ requests_lines self }
    {
        match self {
            ToolName::Detect | ToolName::Info | ToolName::Notify => false,
            ToolName::Get | ToolName::Set | ToolName::Watch => true,
        }
    }

    /// Whether the tool prints the names of lines.
    fn prints_names(self) -> bool
        ensures { result ≡ prints_names self }
    {
        match self {
            ToolName::Detect | ToolName::Set => false,
            ToolName::Info | ToolName::Get | ToolName::Watch | ToolName::Notify => true,
        }
    }

    /// Whether the tool prints what happens to its lines.
    fn is_monitor(self) -> bool
        ensures { result ≡ is_monitor self }
    {
        match self {
            ToolName::Detect | ToolName::Info | ToolName::Get | ToolName::Set => false,
            ToolName::Watch | ToolName::Notify => true,
        }
    }

    fn is_detect(self) -> bool
        ensures { result ≡ is_tool_detect self }
    {
        match self {
            ToolName::Detect => true,
            ToolName::Info | ToolName::Get | ToolName::Set | ToolName::Watch | ToolName::Notify =>
                false,
        }
    }

    fn is_get(self) -> bool
        ensures { result ≡ is_tool_get self }
    {
        match self {
            ToolName::Get => true,
            ToolName::Detect
            | ToolName::Info
            | ToolName::Set
            | ToolName::Watch
            | ToolName::Notify => false,
        }
    }

    fn is_set(self) -> bool
        ensures { result ≡ is_tool_set self }
    {
        match self {
            ToolName::Set => true,
            ToolName::Detect
            | ToolName::Info
            | ToolName::Get
            | ToolName::Watch
            | ToolName::Notify => false,
        }
    }

    fn is_watch(self) -> bool
        ensures { result ≡ is_tool_watch self }
    {
        match self {
            ToolName::Watch => true,
            ToolName::Detect | ToolName::Info | ToolName::Get | ToolName::Set | ToolName::Notify =>
                false,
        }
    }

    fn is_notify(self) -> bool
        ensures { result ≡ is_tool_notify self }
    {
        match self {
            ToolName::Notify => true,
            ToolName::Detect | ToolName::Info | ToolName::Get | ToolName::Set | ToolName::Watch =>
                false,
        }
    }

    /// Whether the tool has an option.
    fn has_option(self, option: OptionName) -> bool
        ensures { result ≡ has_option self option }
    {
        match option {
            OptionName::Chip => !self.is_detect(),
            OptionName::ByName | OptionName::Strict => self.finds_lines(),
            OptionName::Unquoted => self.prints_names(),
            OptionName::Numeric => self.is_get(),
            OptionName::ActiveLow | OptionName::Bias | OptionName::Consumer => {
                self.requests_lines()
            }
            OptionName::Drive => self.is_set(),
            OptionName::Period | OptionName::Edges => self.is_watch(),
            OptionName::Event => self.is_notify(),
            OptionName::Count | OptionName::Format => self.is_monitor(),
        }
    }
}

impl OptionName {
    /// The option's long name.
    pub fn long_name(self) -> &'static str
        ensures { result.now ≡ long_name self }
    {
        match self {
            OptionName::Chip => "--chip",
            OptionName::ByName => "--by-name",
            OptionName::Strict => "--strict",
            OptionName::Unquoted => "--unquoted",
            OptionName::Numeric => "--numeric",
            OptionName::ActiveLow => "--active-low",
            OptionName::Bias => "--bias",
            OptionName::Drive => "--drive",
            OptionName::Period => "--debounce-period",
            OptionName::Edges => "--edges",
            OptionName::Event => "--event",
            OptionName::Count => "--num-events",
            OptionName::Format => "--format",
            OptionName::Consumer => "--consumer",
        }
    }

    /// The option's short name; empty where it has none.
    fn short_name(self) -> &'static str
        ensures { result.now ≡ short_name self }
    {
        match self {
            OptionName::Chip => "-c",
            OptionName::Strict => "-s",
            OptionName::ActiveLow => "-l",
            OptionName::Bias => "-b",
            OptionName::Drive => "-d",
            OptionName::Period => "-p",
            OptionName::Edges | OptionName::Event => "-e",
            OptionName::Count => "-n",
            OptionName::Format => "-F",
            OptionName::Consumer => "-C",
            OptionName::ByName | OptionName::Unquoted | OptionName::Numeric => "",
        }
    }

    /// Whether the option takes a value.
    pub(crate) fn takes_value(self) -> bool
        ensures { result ≡ takes_value self }
    {
        match self {
            OptionName::Chip
            | OptionName::Bias
            | OptionName::Drive
            | OptionName::Period
            | OptionName::Edges
            | OptionName::Event
            | OptionName::Count
            | OptionName::Format
            | OptionName::Consumer => true,
            OptionName::ByName
            | OptionName::Strict
            | OptionName::Unquoted
            | OptionName::Numeric
            | OptionName::ActiveLow => false,
        }
    }
}

/// The tool of that name among some.
fn named_among<'a>(tools: &'a [ToolName], word: &[u8]) -> Option<&'a ToolName>
    ensures { option_copied result ≡ find (is_named word.now) tools.now }
{
    for tool in tools {
        if tool.text().as_bytes() == word {
            return Some(tool);
        }
    }
    None
}

/// The option of that long name among some, if the tool has it.
pub(crate) fn long_among<'a>(
    options: &'a [OptionName],
    tool: ToolName,
    name: &[u8],
) -> Option<&'a OptionName>
    ensures { option_copied result ≡ find (is_long tool name.now) options.now }
{
    for option in options {
        if option.long_name().as_bytes() == name && tool.has_option(*option) {
            return Some(option);
        }
    }
    None
}

/// The option of that short name among some, if the tool has it.
pub(crate) fn short_among<'a>(
    options: &'a [OptionName],
    tool: ToolName,
    name: &[u8],
) -> Option<&'a OptionName>
    ensures { option_copied result ≡ find (is_short tool name.now) options.now }
{
    for option in options {
        if option.short_name().as_bytes() == name && tool.has_option(*option) {
            return Some(option);
        }
    }
    None
}
