//! The request that a command with its options makes.
ghost use Rattle.std.specs.Prelude.{◌≡◌, Some, is_some, option_map, unwrap_or, IfOk};
ghost use Rattle.transcode_words.specs.Answers.{Answers, Never};
ghost use Rattle.transcode_words.specs.Asked.{IsWithin};
ghost use Rattle.transcode_words.specs.AskedSeen.{asked_seen, chosen_seen};
ghost use Rattle.transcode_words.specs.Order.{Found};
ghost use Rattle.people_options.specs.Requests as rule;
ghost use Rattle.people_options.specs.Requests.{action_seen};

use base_texts::Text;
use transcode_words::asked::{Asked, Form, Root, Task};
use transcode_words::{Outcome, Syntax, are_files, count_of, root_of};

/// The name of a command.
#[derive(Clone, Copy)]
pub enum CommandName {
    Show,
    ShowBack,
    Check,
    ToPer,
    ToXml,
    EachToXml,
    Trial,
}

/// The options of a command line, whether or not its command accepts them.
#[derive(Drop)]
pub struct Given<'a> {
    /// The value of `--root`.
    pub root: Option<Text>,
    /// The transfer syntax that `-t` names.
    pub syntax: Option<Syntax>,
    /// Whether `--plain` is given.
    pub plain: bool,
    /// Whether `--stamp` is given.
    pub stamp: bool,
    /// The value of `-i`: the file to read instead of the standard input.
    pub input: Option<&'a str>,
    /// The value of `-o`: the file to write instead of the standard output.
    pub output: Option<&'a str>,
}

/// A command with its options and its words.
#[derive(Drop)]
pub struct Call<'a> {
    pub command: CommandName,
    pub given: Given<'a>,
    /// The words that are no options: the root, where no option names it, and the files; or the number of `trial`.
    pub words: Vec<Text>,
}

/// What a command does, with what its options choose.
#[derive(Clone, Copy)]
pub enum Action<'a> {
    /// Shows the module in this form.
    Show { form: Form },
    /// Shows what a printed module denotes.
    ShowBack,
    /// Does this task, with the root that `--root` names.
    Serve { task: Task, root: Option<&'a Text> },
    /// Encodes the trial document.
    Trial,
}

// Returns whether the word is the name of a schema file.
fn names_schema(word: &Text) -> bool
    ensures { result ≡ rule.names_schema word.now }
{
    word.bytes().ends_with(b".xsd".as_slice())
}

// Returns the name of the root, if there is one, and the files.
fn rooted<'a>(root: Option<&'a Text>, words: &'a [Text]) -> (Option<&'a Text>, &'a [Text])
    ensures { (option_map (λ name. name.now) result.0, result.1.now) ≡ rule.rooted (option_map (λ name. name.now) root.entry) words.now }
{
    match (root, words) {
        (None, [first, others @ ..]) if !others.is_empty() && !names_schema(first) => {
            (Some(first), others)
        }
        _ => (root, words),
    }
}

// Returns the root that the name chooses.
fn chosen(name: Option<&Text>) -> Option<Root<'_>>
    ensures { option_map chosen_seen result ≡ rule.chosen (option_map (λ name. name.now) name.entry) }
{
    match name {
        Some(name) => root_of(name).map(|root| Root::Named(root)),
        None => Some(Root::Only),
    }
}

fn form_of(plain: bool, stamp: bool) -> Option<Form>
    ensures { result ≡ rule.form_of plain stamp }
{
    match (plain, stamp) {
        (false, false) => Some(Form::Notation),
        (true, false) => Some(Form::Plain),
        (false, true) => Some(Form::Stamp),
        (true, true) => None,
    }
}

fn syntax_or_default(syntax: Option<Syntax>) -> Syntax
    ensures { result ≡ unwrap_or syntax Syntax.Aligned }
{
    match syntax {
        Some(syntax) => syntax,
        None => Syntax::Aligned,
    }
}

impl<'a> Given<'a> {
    // Returns whether none of the options is given that only tasks have.
    fn has_no_task(&self) -> bool
        ensures { result ≡ rule.has_no_task self.now }
    {
        self.root.is_none() && self.syntax.is_none() && self.input.is_none()
    }

    // Returns whether none of the options is given that choose the form of what is written.
    fn has_no_form(&self) -> bool
        ensures { result ≡ rule.has_no_form self.now }
    {
        self.syntax.is_none() && !self.plain && !self.stamp
    }

    // Returns whether the command accepts each of the options.
    fn is_accepted_by(&self, command: CommandName) -> bool
        ensures { result ≡ rule.accepts command self.now }
    {
        match command {
            CommandName::Show => self.has_no_task(),
            CommandName::ShowBack => self.has_no_task() && self.has_no_form(),
            CommandName::Check => self.has_no_form() && self.output.is_none(),
            CommandName::ToPer | CommandName::ToXml => !self.plain,
            CommandName::EachToXml => self.has_no_form(),
            CommandName::Trial => {
                self.has_no_task() && self.has_no_form() && self.output.is_none()
            }
        }
    }

    // Returns what a command does that accepts each of the options. Some options exclude one another.
    fn action_of(&self, command: CommandName) -> Option<Action<'_>>
        ensures { option_map action_seen result ≡ rule.action_of command self.now }
    {
        let root = self.root.as_ref();
        let (syntax, stamped) = (syntax_or_default(self.syntax), self.stamp);
        let task = match command {
            CommandName::Show => {
                return form_of(self.plain, self.stamp).map(|form| Action::Show { form });
            }
            CommandName::ShowBack => return Some(Action::ShowBack),
            CommandName::Trial => return Some(Action::Trial),
            CommandName::Check => Task::Check,
            CommandName::ToPer => Task::Send { syntax, stamped },
            CommandName::ToXml => Task::Receive { syntax, stamped },
            CommandName::EachToXml => Task::Each,
        };
        Some(Action::Serve { task, root })
    }

    // Returns what the command does, if it accepts each of the options and they don't exclude one another.
    fn action(&self, command: CommandName) -> Option<Action<'_>>
        ensures { option_map action_seen result ≡ rule.action_by command self.now }
    {
        if self.is_accepted_by(command) {
            self.action_of(command)
        } else {
            None
        }
    }
}

fn shown(form: Form, files: &[Text]) -> Option<Asked<'_>>
    ensures { option_map asked_seen result ≡ rule.shown_by form files.now }
{
    if !are_files(files) {
        return None;
    }
    Some(Asked::Show { form, files })
}

fn shown_back(words: &[Text]) -> Option<Asked<'_>>
    ensures { option_map asked_seen result ≡ rule.shown_back_by words.now }
{
    match words {
        [file] => Some(Asked::ShowBack { file }),
        _ => None,
    }
}

// Returns the task with the root and the files.
fn served<'a>(task: Task, root: Option<&'a Text>, words: &'a [Text]) -> Option<Asked<'a>>
    ensures { option_map asked_seen result ≡ rule.served_by task (rule.rooted (option_map (λ name. name.now) root.entry) words.now) }
{
    let (name, files) = rooted(root, words);
    if !are_files(files) {
        return None;
    }
    let root = chosen(name)?;
    Some(Asked::Serve { task, root, files })
}

fn tried(words: &[Text]) -> Option<Asked<'_>>
    ensures { option_map asked_seen result ≡ rule.tried_by words.now }
{
    match words {
        [word] => count_of(word.bytes()).map(|lines| Asked::Trial { lines }),
        _ => None,
    }
}

impl<'a> Action<'a> {
    // Returns the request of the action with these words.
    fn asked(self, words: &'a [Text]) -> Option<Asked<'a>>
        ensures { option_map asked_seen result ≡ rule.acted_by (action_seen self.entry) words.now }
    {
        match self {
            Action::Show { form } => shown(form, words),
            Action::ShowBack => shown_back(words),
            Action::Serve { task, root } => served(task, root, words),
            Action::Trial => tried(words),
        }
    }
}

impl<'a> Call<'a> {
    fn asked(&self) -> Option<Asked<'_>>
        ensures { option_map asked_seen result ≡ rule.asked_by self.now.command self.now.given self.now.words.items }
    {
        self.given.action(self.command)?.asked(&self.words)
    }

    /// Returns the request that the command makes with its options and its words, or `Usage`.
    pub fn request(&self) -> Result<Asked<'_>, Outcome>
        ensures due { Answers asked_seen (Found (rule.asked_by self.now.command self.now.given self.now.words.items) Outcome.Usage) Never result }
        ensures within { IfOk result (λ asked. IsWithin (asked_seen asked)) }
    {
        self.asked().ok_or(Outcome::Usage)
    }

    /// Returns the name of the root of a task, as it is given.
    pub fn root_name(&self) -> Option<&str>
        ensures { option_map (λ name. name.now) result ≡ rule.root_name self.now.given.root self.now.words.items }
    {
        match rooted(self.given.root.as_ref(), &self.words) {
            (Some(name), _) => Some(name.as_str()),
            (None, _) => None,
        }
    }
}
