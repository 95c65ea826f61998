//! The words with which a line begins.
ghost use Rattle.std.specs.Prelude.{◌≡◌, IfSome, None};
ghost use Rattle.requests.specs.Words.{SpellsNoWord, SpellsNoBlocksWord, SpellsNoSetWord, SpellsNoVolumesWord};
ghost use Rattle.requests.specs.Words.{blocks_text, set_text, text_of, volumes_text};

const READ: &[u8] = b"read";

const WRITE: &[u8] = b"write";

const ZERO: &[u8] = b"zero";

const TOGETHER: &[u8] = b"together";

const LIST: &[u8] = b"list";

const CREATE: &[u8] = b"create";

const EXTEND: &[u8] = b"extend";

const REMOVE: &[u8] = b"remove";

const RENAME: &[u8] = b"rename";

const STATUS: &[u8] = b"status";

const FAIL: &[u8] = b"fail";

const REPLACE: &[u8] = b"replace";

const REBUILD: &[u8] = b"rebuild";

const SCRUB: &[u8] = b"scrub";

/// The word of a line.
#[derive(Clone, Copy)]
pub enum Word {
    OnBlocks(BlocksWord),
    OnVolumes(VolumesWord),
    OnSet(SetWord),
}

/// A word on the blocks of a volume.
#[derive(Clone, Copy)]
pub enum BlocksWord {
    Read,
    Write,
    Zero,
    Together,
}

/// A word on volumes as a whole.
#[derive(Clone, Copy)]
pub enum VolumesWord {
    List,
    Create,
    Extend,
    Remove,
    Rename,
}

/// A word on the set.
#[derive(Clone, Copy)]
pub enum SetWord {
    Status,
    Fail,
    Replace,
    Rebuild,
    Scrub,
}

impl Word {
    /// The word that a field spells, if it is one. Those on blocks are looked at first, since most lines begin so.
    pub fn of(field: &[u8]) -> Option<Self>
        ensures said { IfSome result (λ word. field.now ≡ text_of word) }
        ensures unsaid { result ≡ None → SpellsNoWord field.now }
    {
        if let Some(word) = BlocksWord::of(field) {
            return Some(Word::OnBlocks(word));
        }
        if let Some(word) = VolumesWord::of(field) {
            return Some(Word::OnVolumes(word));
        }
        Some(Word::OnSet(SetWord::of(field)?))
    }
}

impl BlocksWord {
    /// The word on blocks that a field spells, if it is one.
    pub fn of(field: &[u8]) -> Option<Self>
        ensures said { IfSome result (λ word. field.now ≡ blocks_text word) }
        ensures unsaid { result ≡ None → SpellsNoBlocksWord field.now }
    {
        if field == READ {
            Some(BlocksWord::Read)
        } else if field == WRITE {
            Some(BlocksWord::Write)
        } else if field == ZERO {
            Some(BlocksWord::Zero)
        } else if field == TOGETHER {
            Some(BlocksWord::Together)
        } else {
            None
        }
    }
}

impl VolumesWord {
    /// The word on volumes that a field spells, if it is one.
    pub fn of(field: &[u8]) -> Option<Self>
        ensures said { IfSome result (λ word. field.now ≡ volumes_text word) }
        ensures unsaid { result ≡ None → SpellsNoVolumesWord field.now }
    {
        if field == LIST {
            Some(VolumesWord::List)
        } else if field == CREATE {
            Some(VolumesWord::Create)
        } else if field == EXTEND {
            Some(VolumesWord::Extend)
        } else if field == REMOVE {
            Some(VolumesWord::Remove)
        } else if field == RENAME {
            Some(VolumesWord::Rename)
        } else {
            None
        }
    }
}

impl SetWord {
    /// The word on the set that a field spells, if it is one.
    pub fn of(field: &[u8]) -> Option<Self>
        ensures said { IfSome result (λ word. field.now ≡ set_text word) }
        ensures unsaid { result ≡ None → SpellsNoSetWord field.now }
    {
        if field == STATUS {
            Some(SetWord::Status)
        } else if field == FAIL {
            Some(SetWord::Fail)
        } else if field == REPLACE {
            Some(SetWord::Replace)
        } else if field == REBUILD {
            Some(SetWord::Rebuild)
        } else if field == SCRUB {
            Some(SetWord::Scrub)
        } else {
            None
        }
    }
}
