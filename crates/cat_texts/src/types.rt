ghost use Rattle.std.specs.Prelude.{◌≡◌};
ghost use Rattle.cat_texts.specs.Types as spec;

use lake_types::ColType;

const TYPES: [ColType; 8] = [
    ColType::Bool,
    ColType::Int8,
    ColType::Int16,
    ColType::Int32,
    ColType::Int64,
    ColType::Varchar,
    ColType::Blob,
    ColType::Date,
];

/// The catalogue's text of a type.
pub fn type_text(ty: ColType) -> &'static str
    ensures { result.now ≡ spec.type_text ty }
{
    match ty {
        ColType::Bool => "boolean",
        ColType::Int8 => "int8",
        ColType::Int16 => "int16",
        ColType::Int32 => "int32",
        ColType::Int64 => "int64",
        ColType::Varchar => "varchar",
        ColType::Blob => "blob",
        ColType::Date => "date",
    }
}

/// The type that has this text in the catalogue.
pub fn type_of(text: &str) -> Option<ColType>
    ensures { result ≡ spec.type_of text.now }
{
    TYPES.iter().copied().find(|ty| type_text(*ty) == text)
}
