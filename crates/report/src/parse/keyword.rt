//! The words with which a line begins.
ghost use Rattle.std.specs.Prelude.{◌≡◌, ◌≢◌, codes, Some, None};

const LIST: &[u8] = b"list";

const CREATE: &[u8] = b"create";

const EXTEND: &[u8] = b"extend";

const REMOVE: &[u8] = b"remove";

const RENAME: &[u8] = b"rename";

const READ: &[u8] = b"read";

const WRITE: &[u8] = b"write";

/// The word of a command.
#[derive(Clone, Copy)]
pub enum Keyword {
    List,
    Create,
    Extend,
    Remove,
    Rename,
    Read,
    Write,
}

impl Keyword {
    /// The keyword that a field spells, if it is one. `read` and `write` are looked at first, since most lines begin
    /// so.
    pub fn of(field: &[u8]) -> Option<Self>
        ensures list { result ≡ Some Keyword.List → field.now ≡ codes "list" }
        ensures create { result ≡ Some Keyword.Create → field.now ≡ codes "create" }
        ensures extend { result ≡ Some Keyword.Extend → field.now ≡ codes "extend" }
        ensures remove { result ≡ Some Keyword.Remove → field.now ≡ codes "remove" }
        ensures rename { result ≡ Some Keyword.Rename → field.now ≡ codes "rename" }
        ensures read { result ≡ Some Keyword.Read → field.now ≡ codes "read" }
        ensures write { result ≡ Some Keyword.Write → field.now ≡ codes "write" }
        ensures none { result ≡ None → (field.now ≢ codes "list") × (field.now ≢ codes "create")
            × (field.now ≢ codes "extend")
            × (field.now ≢ codes "remove") × (field.now ≢ codes "read") × (field.now ≢ codes "write")
            × (field.now ≢ codes "rename") }
    {
        if field == READ {
            Some(Keyword::Read)
        } else if field == WRITE {
            Some(Keyword::Write)
        } else if field == LIST {
            Some(Keyword::List)
        } else if field == CREATE {
            Some(Keyword::Create)
        } else if field == EXTEND {
            Some(Keyword::Extend)
        } else if field == REMOVE {
            Some(Keyword::Remove)
        } else if field == RENAME {
            Some(Keyword::Rename)
        } else {
            None
        }
    }
}
