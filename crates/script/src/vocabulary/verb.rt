ghost use Rattle.std.specs.Prelude.{◌≡◌, find};
ghost use Rattle.std.specs.Str.{bytes_eq};
ghost use Rattle.script.specs.vocabulary.Verbs.{verb_word, all_verbs};

use crate::vocabulary::option::{receive_word, send_word};

/// The kind of call that a line makes, by its first word.
#[derive(Clone, Copy)]
pub enum Verb {
    Attach,
    Names,
    Type,
    Rename,
    AllocateName,
    Allocate,
    Destroy,
    Deallocate,
    GetRefs,
    ModRefs,
    SetQlimit,
    SetMscount,
    SetSeqno,
    GetReceiveStatus,
    GetSetStatus,
    MoveMember,
    RequestNotification,
    InsertRight,
    ExtractRight,
    Send,
    Receive,
    SpaceCreate,
    SpaceDestroy,
}

const ALL_VERBS: [Verb; 23] = [
    Verb::Attach,
    Verb::Names,
    Verb::Type,
    Verb::Rename,
    Verb::AllocateName,
    Verb::Allocate,
    Verb::Destroy,
    Verb::Deallocate,
    Verb::GetRefs,
    Verb::ModRefs,
    Verb::SetQlimit,
    Verb::SetMscount,
    Verb::SetSeqno,
    Verb::GetReceiveStatus,
    Verb::GetSetStatus,
    Verb::MoveMember,
    Verb::RequestNotification,
    Verb::InsertRight,
    Verb::ExtractRight,
    Verb::Send,
    Verb::Receive,
    Verb::SpaceCreate,
    Verb::SpaceDestroy,
];

impl Verb {
    /// Returns the verb's word.
    pub fn word(self) -> &'static [u8]
        ensures { result.now ≡ verb_word self }
    {
        match self {
            Verb::Attach => b"attach",
            Verb::Names => b"names",
            Verb::Type => b"type",
            Verb::Rename => b"rename",
            Verb::AllocateName => b"allocate_name",
            Verb::Allocate => b"allocate",
            Verb::Destroy => b"destroy",
            Verb::Deallocate => b"deallocate",
            Verb::GetRefs => b"get_refs",
            Verb::ModRefs => b"mod_refs",
            Verb::SetQlimit => b"set_qlimit",
            Verb::SetMscount => b"set_mscount",
            Verb::SetSeqno => b"set_seqno",
            Verb::GetReceiveStatus => b"get_receive_status",
            Verb::GetSetStatus => b"get_set_status",
            Verb::MoveMember => b"move_member",
            Verb::RequestNotification => b"request_notification",
            Verb::InsertRight => b"insert_right",
            Verb::ExtractRight => b"extract_right",
            Verb::Send => send_word(),
            Verb::Receive => receive_word(),
            Verb::SpaceCreate => b"space_create",
            Verb::SpaceDestroy => b"space_destroy",
        }
    }

    /// Returns the verb with this word.
    pub fn of_word(word: &[u8]) -> Option<Verb>
        ensures { result ≡ find (λ verb. bytes_eq (verb_word verb) word.now) all_verbs }
    {
        ALL_VERBS.iter().copied().find(|verb| verb.word() == word)
    }
}
