// What JSON may be, as data: each record is the table of its fields.
ghost use Rattle.std.specs.Prelude.{◌≡◌};
ghost use Rattle.rg_json.specs.Kinds.{shape_of, unfolded};

use crate::name::Name;

/// What a value may be, where `R` names the records.
#[derive(Clone, Copy, Debug, PartialEq, Eq)]
pub enum Kind<R> {
    /// A text.
    Text,
    /// A text of 1 to 256 characters.
    Name,
    /// A text of at most 4,096 characters.
    Value,
    /// True or false.
    Truth,
    /// True or false, or one of the texts `true` and `false`.
    TruthWord,
    /// An integer of 64 bits with its sign.
    Integer,
    /// An integer of 64 bits without a sign.
    Count,
    /// Whatever it is.
    Anything,
    Texts,
    Names,
    Things,
    /// A map of texts.
    Pairs,
    /// A map from names to values.
    Values,
    /// A map of lists of texts.
    Lists,
    /// A list of such maps.
    MapsOfLists,
    Record(R),
    /// A text, or a record.
    TextOr(R),
    List(R),
    /// A list of texts and records.
    TextsOr(R),
    Map(R),
    /// A list of such maps.
    Maps(R),
}

/// Whether a field may be missing. Null counts as missing.
#[derive(Clone, Copy, Debug, PartialEq, Eq)]
pub enum Need {
    Must,
    May,
}

/// A field of a record.
#[derive(Clone, Copy, Debug, PartialEq, Eq)]
pub struct Field<K, R>(pub K, pub Need, pub Kind<R>);

/// Which keys a map may have.
#[derive(Clone, Copy, Debug, PartialEq, Eq)]
pub enum Keys {
    Any,
    /// Keys of 1 to 256 characters.
    Names,
}

/// What a kind is, one level of it.
pub enum Form<K: 'static, R: 'static> {
    Text,
    Name,
    Value,
    Truth,
    TruthWord,
    Integer,
    Count,
    Anything,
    /// A text, or else this.
    TextOr(Kind<R>),
    List(Kind<R>),
    Map(Keys, Kind<R>),
    Record(&'static [Field<K, R>]),
}

/// The records of a crate, or parts of records that are maps in JSON. Each is the table of its fields.
pub trait Table<K: Name>: Copy + 'static {
    ghost use Rattle.rg_json.specs.Kinds.{fields_from};
    ghost use Rattle.rg_json.specs.Shape.{Shape, record_of};

    /// The shape.
    ghost record_shape: { Self → Shape };

    /// Its fields, in the order in which they are judged.
    fn fields(self) -> &'static [Field<K, Self>]
        ensures { record_of (fields_from K.name_of record_shape result.now) ≡ record_shape self };
}

/// What a kind is.
#[tactic(auto, unfolding(crate::specs::Kinds::shape_of))]
pub(crate) fn form_of<K: Name, R: Table<K>>(kind: Kind<R>) -> Form<K, R>
    ensures { unfolded K.name_of R.record_shape result ≡ shape_of R.record_shape kind }
{
    match kind {
        Kind::Text => Form::Text,
        Kind::Name => Form::Name,
        Kind::Value => Form::Value,
        Kind::Truth => Form::Truth,
        Kind::TruthWord => Form::TruthWord,
        Kind::Integer => Form::Integer,
        Kind::Count => Form::Count,
        Kind::Anything => Form::Anything,
        Kind::Texts => Form::List(Kind::Text),
        Kind::Names => Form::List(Kind::Name),
        Kind::Things => Form::List(Kind::Anything),
        Kind::Pairs => Form::Map(Keys::Any, Kind::Text),
        Kind::Values => Form::Map(Keys::Names, Kind::Value),
        Kind::Lists => Form::Map(Keys::Any, Kind::Texts),
        Kind::MapsOfLists => Form::List(Kind::Lists),
        Kind::Record(record) => Form::Record(record.fields()),
        Kind::TextOr(record) => Form::TextOr(Kind::Record(record)),
        Kind::List(record) => Form::List(Kind::Record(record)),
        Kind::TextsOr(record) => Form::List(Kind::TextOr(record)),
        Kind::Map(record) => Form::Map(Keys::Any, Kind::Record(record)),
        Kind::Maps(record) => Form::List(Kind::Map(record)),
    }
}
