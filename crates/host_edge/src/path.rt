ghost use Rattle.std.specs.Prelude.{◌≡◌, ◌≢◌, [], ◌++◌, All, IfSome, IsTrue, codes, false};
ghost use Rattle.host_edge.specs.Paths as spec;

use arrayvec::ArrayString;
use lake_types::Words;

/// The longest path of a folder. It leaves room for any name that a folder of the system can have.
const MAX_FOLDER_BYTES: usize = 200;

/// A path on the stack, so that it takes no memory.
pub type HostPath = ArrayString<512>;

fn same(a: &[u8], b: &[u8]) -> bool
    ensures { result ≡ false → a.now ≢ b.now }
{
    *a == *b
}

/// Whether no byte ends a name or a path.
fn has_name_bytes(name: &[u8]) -> bool
    ensures { IsTrue result → All spec.IsInName name.now }
{
    for byte in name {
        if *byte == b'/' || *byte == 0 {
            return false;
        }
    }
    true
}

/// Whether a name can be one of a file in the folder itself, and no step out of it.
fn is_plain(name: &[u8]) -> bool
    ensures { IsTrue result → spec.IsPlain name.now }
{
    if name.is_empty() || same(name, b".") || same(name, b"..") {
        return false;
    }
    has_name_bytes(name)
}

/// Whether the folder leaves room for a name behind it.
pub fn is_short(folder: &str) -> bool {
    folder.len() <= MAX_FOLDER_BYTES
}

/// The parts of a path one behind the other, where they fit.
fn joined(folder: &str, name: &str) -> Option<HostPath>
    ensures { IfSome result (λ path. path.bytes ≡ folder.now ++ codes "/" ++ name.now) }
{
    let mut path = HostPath::new();
    path.try_push_str(folder).ok()?;
    path.try_push_str("/").ok()?;
    path.try_push_str(name).ok()?;
    Some(path)
}

/// The path of a name in a folder. There is none where the name is no name of a file in the folder, or doesn't fit.
pub fn path_in(folder: &str, name: &Words) -> Option<HostPath>
    ensures { IfSome result (λ path. spec.IsPathIn folder.now name.now path.bytes) }
{
    let name = name.as_str();
    if !is_plain(name.as_bytes()) {
        return None;
    }
    joined(folder, name)
}
