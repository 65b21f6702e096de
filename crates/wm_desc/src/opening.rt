// The names of the objects that an empty store opens with.
ghost use Rattle.std.specs.Prelude.{◌≡◌};
ghost use Rattle.wm_desc.specs.Opening.{qbatch, qdftjobd, echo};

use wm_base::{Name, QName};

/// QGPL/QBATCH: a class, a queue, a job description and the controlling subsystem.
pub fn qbatch() -> QName
    ensures { result ≡ qbatch }
{
    QName {
        lib: Name::of(b"QGPL"),
        name: Name::of(b"QBATCH"),
    }
}

/// QGPL/QDFTJOBD, the job description of SBMJOB.
pub fn qdftjobd() -> QName
    ensures { result ≡ qdftjobd }
{
    QName {
        lib: Name::of(b"QGPL"),
        name: Name::of(b"QDFTJOBD"),
    }
}

/// QGPL/ECHO, a program.
pub fn echo() -> QName
    ensures { result ≡ echo }
{
    QName {
        lib: Name::of(b"QGPL"),
        name: Name::of(b"ECHO"),
    }
}
