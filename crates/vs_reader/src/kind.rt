//! The kinds of records, by the first field.

ghost use Rattle.std.specs.Prelude.{◌≡◌};
ghost use Rattle.std.specs.Str.{bytes_eq};
ghost use Rattle.vs_reader.specs.Kinds.{kind_name, kind_of};

/// The kind of a record after the first.
#[derive(Clone, Copy)]
pub enum Kind {
    Stop,
    Deadhead,
    Layer,
    Trip,
}

impl Kind {
    /// The kind whose records begin with this field. None where there is none.
    pub fn of(field: &[u8]) -> Option<Kind>
        ensures { result ≡ kind_of field.now }
    {
        if is_text(field, "stop") {
            Some(Kind::Stop)
        } else if is_text(field, "deadhead") {
            Some(Kind::Deadhead)
        } else if is_text(field, "layer") {
            Some(Kind::Layer)
        } else if is_text(field, "trip") {
            Some(Kind::Trip)
        } else {
            None
        }
    }

    /// The first field of its records, which is also what it is called.
    pub fn name(self) -> &'static str
        ensures { result.now ≡ kind_name self }
    {
        match self {
            Kind::Stop => "stop",
            Kind::Deadhead => "deadhead",
            Kind::Layer => "layer",
            Kind::Trip => "trip",
        }
    }
}

/// Whether a field is this text.
pub fn is_text(field: &[u8], text: &str) -> bool
    ensures { result ≡ bytes_eq field.now text.now }
{
    field == text.as_bytes()
}
