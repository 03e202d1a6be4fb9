//! Types that are common as keys and as values.
ghost use Rattle.std.specs.Prelude.{◌≡◌, IfNone, IfSome};
ghost use Rattle.btreekv_types.specs.AnyTypes.{plain_of};
ghost use Rattle.btreekv_types.specs.declared.common_type.CommonType.{CommonType as CommonTypeOf};

use crate::plain_type::PlainType;

/// A type that goes with each type that has parts: keys of it with such values, and values of it with such keys.
#[derive(Clone, Copy, Debug, PartialEq, Eq)]
pub enum CommonType {
    U32,
    U64,
    Text,
}

impl CommonType {
    /// Returns the one that a type is, or `None` if it is another type.
    pub(crate) fn from_plain(plain: PlainType) -> Option<CommonType>
        ensures some { IfSome result (λ common. plain_of common ≡ plain) }
        ensures none { IfNone result ((common : CommonTypeOf) → plain_of common ≡ plain → ⊥) }
    {
        match plain {
            PlainType::U32 => Some(CommonType::U32),
            PlainType::U64 => Some(CommonType::U64),
            PlainType::Text => Some(CommonType::Text),
            _ => None,
        }
    }

    /// Returns it among all types that have no parts.
    pub(crate) fn plain(self) -> PlainType
        ensures { result ≡ plain_of self }
    {
        match self {
            CommonType::U32 => PlainType::U32,
            CommonType::U64 => PlainType::U64,
            CommonType::Text => PlainType::Text,
        }
    }
}
