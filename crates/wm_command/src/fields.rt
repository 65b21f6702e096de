// The values of keys as what a command's fields hold, and fields as values.
ghost use Rattle.std.specs.Prelude.{◌≡◌, IfOk};
ghost use Rattle.std.specs.Option.{option_map};
ghost use Rattle.wm_command.specs.Fields.{maybe, limit_value, word_or, or_special};
ghost use Rattle.wm_command.specs.declared.value.Value.TheVariants as value;

use crate::reading::same_key;
use crate::row::Special;
use crate::value::{Value, Values};
use wm_base::{Key, Limit, Name, NoMemory, Priority, QName, Text};
use wm_desc::{Cmp, qbatch};
use wm_law::{EndOption, JobRef};
use wm_when::{DateSpec, TimeSpec};

/// Nothing for a special word.
pub fn maybe<V: Drop>(is_word: bool, value: V) -> Option<V>
    ensures { result ≡ maybe is_word value }
{
    if is_word { None } else { Some(value) }
}

pub fn limit_value(limit: Limit) -> Value
    ensures { result ≡ limit_value limit }
{
    match limit {
        Limit::NoMax => Value::Special(Special::Nomax),
        Limit::Most(n) => Value::Number(n),
    }
}

/// The value of a field that may be left out: the special word of the row, where there is none.
pub fn word_or(special: Special, value: Option<Value>) -> Value
    ensures { result ≡ word_or special value }
{
    value.unwrap_or(Value::Special(special))
}

/// The same of a text. An `Err` is want of memory.
pub fn text_or(special: Special, text: &Option<Text>) -> Result<Value, NoMemory>
    ensures { IfOk result (λ v. v ≡ or_special special value.Text text.now) }
{
    match text {
        None => Ok(Value::Special(special)),
        Some(text) => Ok(Value::Text(text.clone()?)),
    }
}

pub fn priority_value(priority: Option<Priority>) -> Option<Value>
    ensures { result ≡ option_map value.Number priority }
{
    Some(Value::Number(priority?.get() as u32))
}

impl Values {
    ghost use Rattle.std.specs.Prelude.{◌≡◌, IfOk};
    ghost use Rattle.std.specs.Option.{option_copied};
    ghost use Rattle.wm_command.specs.Line.{lacks};
    ghost use Rattle.wm_command.specs.Fields.{value_of, object_in, name_in, text_in, number_in, limit_in, flag_in, ending_in, job_in, compare_in, date_in, time_in, priority_in, is_word_in, maybe, class_in, maxpty_in, request_in};

    /// The value of a key.
    #[tactic(auto, unfolding(crate::specs::Fields::value_of))]
    fn value_of(&self, key: Key) -> Option<&Value>
        ensures { option_copied result ≡ value_of key self.now }
    {
        self.as_slice()
            .iter()
            .find(|given| same_key(given.key, key))
            .map(|given| &given.value)
    }

    #[tactic(auto, unfolding(crate::specs::Fields::object_in))]
    pub fn object(&self, key: Key) -> QName
        ensures { result ≡ object_in key self.now }
    {
        match self.value_of(key) {
            Some(Value::Object(q)) => *q,
            _ => qbatch(),
        }
    }

    #[tactic(auto, unfolding(crate::specs::Fields::name_in))]
    pub fn name(&self, key: Key) -> Name
        ensures { result ≡ name_in key self.now }
    {
        match self.value_of(key) {
            Some(Value::Name(n)) => *n,
            _ => Name::of(b"QBATCH"),
        }
    }

    #[tactic(auto, unfolding(crate::specs::Fields::number_in))]
    pub fn number(&self, key: Key) -> u32
        ensures { result ≡ number_in key self.now }
    {
        match self.value_of(key) {
            Some(Value::Number(n)) => *n,
            _ => 0,
        }
    }

    #[tactic(auto, unfolding(crate::specs::Fields::limit_in))]
    pub fn limit(&self, key: Key) -> Limit
        ensures { result ≡ limit_in key self.now }
    {
        match self.value_of(key) {
            Some(Value::Number(n)) => Limit::Most(*n),
            _ => Limit::NoMax,
        }
    }

    #[tactic(auto, unfolding(crate::specs::Fields::flag_in))]
    pub fn flag(&self, key: Key) -> bool
        ensures { result ≡ flag_in key self.now }
    {
        match self.value_of(key) {
            Some(Value::Flag(b)) => *b,
            _ => false,
        }
    }

    #[tactic(auto, unfolding(crate::specs::Fields::ending_in))]
    pub fn ending(&self, key: Key) -> EndOption
        ensures { result ≡ ending_in key self.now }
    {
        match self.value_of(key) {
            Some(Value::Ending(e)) => *e,
            _ => EndOption::Cntrld,
        }
    }

    #[tactic(auto, unfolding(crate::specs::Fields::job_in))]
    pub fn job(&self, key: Key) -> JobRef
        ensures { result ≡ job_in key self.now }
    {
        match self.value_of(key) {
            Some(Value::Job(j)) => *j,
            _ => JobRef::Simple(Name::of(b"QBATCH")),
        }
    }

    #[tactic(auto, unfolding(crate::specs::Fields::date_in))]
    pub fn date(&self, key: Key) -> DateSpec
        ensures { result ≡ date_in key self.now }
    {
        match self.value_of(key) {
            Some(Value::Date(d)) => *d,
            _ => DateSpec::Current,
        }
    }

    #[tactic(auto, unfolding(crate::specs::Fields::time_in))]
    pub fn time(&self, key: Key) -> TimeSpec
        ensures { result ≡ time_in key self.now }
    {
        match self.value_of(key) {
            Some(Value::Time(t)) => *t,
            _ => TimeSpec::Current,
        }
    }

    /// The text of a key. An `Err` is want of memory.
    #[tactic(auto, unfolding(crate::specs::Fields::text_in))]
    pub fn text(&self, key: Key) -> Result<Text, NoMemory>
        ensures { IfOk result (λ text. text ≡ text_in key self.now) }
    {
        match self.value_of(key) {
            Some(Value::Text(text)) => Ok(text.clone()?),
            _ => Ok(Text::new(self.allocator())),
        }
    }

    /// The compare value of a key. An `Err` is want of memory.
    #[tactic(auto, unfolding(crate::specs::Fields::compare_in))]
    pub fn compare(&self, key: Key) -> Result<Cmp, NoMemory>
        ensures { IfOk result (λ cmp. cmp ≡ compare_in key self.now) }
    {
        match self.value_of(key) {
            Some(Value::Compare(cmp)) => Ok(cmp.clone()?),
            _ => Ok(Cmp::Any),
        }
    }

    #[tactic(auto, unfolding(crate::specs::Fields::priority_in))]
    pub fn priority(&self, key: Key) -> Priority
        ensures { result ≡ priority_in key self.now }
    {
        let n = self.number(key);
        if 1 <= n && n <= 9 {
            Priority::new(n as u8)
        } else {
            Priority::new(5)
        }
    }

    /// Whether a key has its special word.
    #[tactic(auto, unfolding(crate::specs::Fields::is_word_in))]
    pub fn is_word(&self, key: Key) -> bool
        ensures { result ≡ is_word_in key self.now }
    {
        matches!(self.value_of(key), Some(Value::Special(_)))
    }

    /// Whether a key has no value.
    #[tactic(auto, unfolding(crate::specs::Line::lacks))]
    pub fn lacks(&self, key: Key) -> bool
        ensures { result ≡ lacks key self.now }
    {
        matches!(self.value_of(key), None | Some(Value::Nothing))
    }

    /// *SBSD is the class with the description's name.
    #[tactic(auto, unfolding(crate::specs::Fields::class_in))]
    pub fn class(&self, key: Key) -> QName
        ensures { result ≡ class_in key self.now }
    {
        if self.is_word(key) {
            self.object(Key::Sbsd)
        } else {
            self.object(key)
        }
    }

    /// MAXPTY1 to MAXPTY9.
    #[tactic(auto, unfolding(crate::specs::Fields::maxpty_in))]
    pub fn maxpty(&self) -> [Limit; 9]
        ensures { result ≡ maxpty_in self.now }
    {
        [
            self.limit(Key::Maxpty1),
            self.limit(Key::Maxpty2),
            self.limit(Key::Maxpty3),
            self.limit(Key::Maxpty4),
            self.limit(Key::Maxpty5),
            self.limit(Key::Maxpty6),
            self.limit(Key::Maxpty7),
            self.limit(Key::Maxpty8),
            self.limit(Key::Maxpty9),
        ]
    }

    /// The text of a key, and nothing for its special word. An `Err` is want of memory.
    pub fn maybe_text(&self, key: Key) -> Result<Option<Text>, NoMemory>
        ensures { IfOk result (λ text. text ≡ maybe (is_word_in key self.now) (text_in key self.now)) }
    {
        if self.is_word(key) {
            return Ok(None);
        }
        Ok(Some(self.text(key)?))
    }

    /// The text of CMD's CALL, or RQSDTA. An `Err` is want of memory.
    #[tactic(auto, unfolding(crate::specs::Fields::request_in, crate::specs::Fields::is_word_in, crate::specs::Fields::text_in))]
    pub fn request(&self) -> Result<Option<Text>, NoMemory>
        ensures { IfOk result (λ text. text ≡ request_in self.now) }
    {
        if let Some(Value::Text(text)) = self.value_of(Key::Cmd) {
            return Ok(Some(text.clone()?));
        }
        Ok(self.maybe_text(Key::Rqsdta)?)
    }
}
