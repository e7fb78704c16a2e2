use crate::{Name, Range, Seq, Text, Value};

/// Bytes without further meaning: the content of a stream, or of one write.
pub type Bytes = Seq<u8>;

/// Names of objects. The owner of the list owns no reference to them.
pub type NameList = Seq<Name>;

/// The byte ranges of one request, 1 to 4 of them. (npapi.h, NPByteRange.)
pub type Ranges = Seq<Range>;

/// Texts in their order: attributes of an instance, a name and its value in turn.
pub type Texts = Seq<Text>;

/// Values in their order, such as the arguments of a call, at most 8.
pub type Values = Seq<Value>;
