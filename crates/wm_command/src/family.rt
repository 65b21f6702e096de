// The fields of commands in tables, from which both ways are written: a command made of its keys' values, and its values.
//
// A line `Chgjob [..]: job = job Job, jobpty = priority Jobpty Same, ..` says that CHGJOB's field `job` holds the job of JOB, and
// `jobpty` the priority of JOBPTY, or nothing where that is *SAME. In the brackets stand the fields that own memory, which are
// cloned before the values are made.

/// The command of a verb, made of its keys' values.
macro_rules! made {
    (($verb:ident, $values:ident) { $($more:tt)* }
    $($command:ident [$($owned:tt)*]: $($field:ident = $($held:ident)+),+;)*) => {
        match $verb {
            $($more)*
            $(ChangeVerb::$command => Ok(Command::$command($command {
                $($field: held!($values $($held)+),)+
            })),)*
            _ => unreachable!(),
        }
    };
}

/// What a field holds, of its key's value.
macro_rules! held {
    ($values:ident text $key:ident) => { $values.text(Key::$key)? };
    ($values:ident text $key:ident $word:ident) => { $values.maybe_text(Key::$key)? };
    ($values:ident request $key:ident $word:ident) => { $values.request()? };
    ($values:ident compare $key:ident) => { $values.compare(Key::$key)? };
    ($values:ident $held:ident $key:ident) => { $values.$held(Key::$key) };
    ($values:ident $held:ident $key:ident $word:ident) => {
        maybe($values.is_word(Key::$key), $values.$held(Key::$key))
    };
}

/// The values of a command's keys, in the order of the table.
macro_rules! shown {
    (($alloc:ident, $of:ident) { $($more:tt)* }
    $($command:ident [$($owned:ident $($word:ident)?),*]: $($field:ident = $($held:ident)+),+;)*) => {
        match $of {
            $($more)*
            $(Command::$command(c) => {
                $(let $owned = cloned!(c.$owned $($word)?);)*
                gathered($alloc, [$(given!(c $field $($held)+)),+])
            })*
            _ => unreachable!(),
        }
    };
}

/// A text or a compare value, which owns memory, as a value.
macro_rules! cloned {
    ($c:ident.cmpval) => { Value::Compare($c.cmpval.clone()?) };
    ($c:ident.$field:ident) => { Value::Text($c.$field.clone()?) };
    ($c:ident.$field:ident $word:ident) => { text_or(Special::$word, &$c.$field)? };
}

/// A key with the value that shows what its field holds.
macro_rules! given {
    ($c:ident $field:ident $held:ident $key:ident $($word:ident)?) => {
        Given { key: Key::$key, value: shown_as!($held $c.$field $($word)?) }
    };
}

/// The value that shows what a field holds.
macro_rules! shown_as {
    (text $c:ident.$field:ident $($word:ident)?) => { $field };
    (request $c:ident.$field:ident $word:ident) => { $field };
    (compare $c:ident.$field:ident) => { $field };
    (object $c:ident.$field:ident) => { Value::Object($c.$field) };
    (class $c:ident.$field:ident) => { Value::Object($c.$field) };
    (name $c:ident.$field:ident) => { Value::Name($c.$field) };
    (number $c:ident.$field:ident) => { Value::Number($c.$field) };
    (priority $c:ident.$field:ident) => { Value::Number($c.$field.get() as u32) };
    (limit $c:ident.$field:ident) => { limit_value($c.$field) };
    (flag $c:ident.$field:ident) => { Value::Flag($c.$field) };
    (ending $c:ident.$field:ident) => { Value::Ending($c.$field) };
    (job $c:ident.$field:ident) => { Value::Job($c.$field) };
    (date $c:ident.$field:ident) => { Value::Date($c.$field) };
    (time $c:ident.$field:ident) => { Value::Time($c.$field) };
    (priority $c:ident.$field:ident $word:ident) => { word_or(Special::$word, priority_value($c.$field)) };
    (object $c:ident.$field:ident $word:ident) => { word_or(Special::$word, $c.$field.map(Value::Object)) };
    (name $c:ident.$field:ident $word:ident) => { word_or(Special::$word, $c.$field.map(Value::Name)) };
    (number $c:ident.$field:ident $word:ident) => { word_or(Special::$word, $c.$field.map(Value::Number)) };
    (flag $c:ident.$field:ident $word:ident) => { word_or(Special::$word, $c.$field.map(Value::Flag)) };
    (date $c:ident.$field:ident $word:ident) => { word_or(Special::$word, $c.$field.map(Value::Date)) };
    (time $c:ident.$field:ident $word:ident) => { word_or(Special::$word, $c.$field.map(Value::Time)) };
}

pub(crate) use cloned;
pub(crate) use given;
pub(crate) use held;
pub(crate) use made;
pub(crate) use shown;
pub(crate) use shown_as;
