//! Why a text or an alias is not taken (MQTT 5.0, 3.3.2.3.4, 4.7, 4.8.2).
use thiserror::Error;

/// Why a text is no topic name or filter, or an alias stands for no topic.
#[derive(Clone, Copy, Debug, PartialEq, Eq, Error)]
pub enum TopicFault {
    /// 1: a text without characters (4.7.3).
    #[error("the text is empty")]
    Empty = 1,
    /// 2: `+` or `#` in a topic name (4.7.1).
    #[error("a wildcard stands in a topic name")]
    WildcardInName = 2,
    /// 3: a wildcard that doesn't fill its level, or a `#` before the last one (4.7.1).
    #[error("a wildcard stands where it may not")]
    WildcardPlace = 3,
    /// 4: a filter that begins with `$share/` and isn't a shared filter; from `Shared`, each
    /// text that isn't one (4.8.2).
    #[error("the text is no shared filter")]
    Share = 4,
    /// 5: a topic alias of 0 or above the maximum (3.3.2.3.4).
    #[error("the topic alias is out of range")]
    AliasRange = 5,
    /// 6: an empty topic with an alias that stands for none (3.3.2.3.4).
    #[error("the topic alias is unknown")]
    AliasUnknown = 6,
    /// 7: want of memory.
    #[error("want of memory")]
    Memory = 7,
    /// 8: what would be a topic name or a filter, but has U+0000 or more than 65,535 bytes, so that
    /// no packet carries it (1.5.4, 4.7.3). Never of a `Text`.
    #[error("no packet carries the text")]
    NotText = 8,
}
