//! What is sent.
ghost use Rattle.std.specs.Prelude.{◌≡◌, ◌++◌, ◌∷◌, OnOk, OnErr};
ghost use Rattle.ledger_codec.specs.Spelling.{Grows};
ghost use Rattle.sync_net.specs.Numbered.{number_of};

use crate::request::{
    GetCompactStateRequest, GetCompactTargetRequest, GetOperationsRequest, GetSyncTargetRequest,
};
use crate::response::{
    ErrorResponse, GetCompactStateResponse, GetCompactTargetResponse, GetOperationsResponse,
    GetSyncTargetResponse,
};
use ledger_codec::{CodecError, OutOfMemory, Reader, Spell, Writer};
use std::alloc::Global;

/// A message: a tag and its fields.
#[derive(Drop)]
pub enum Message<Op> {
    /// Tag 0.
    GetOperationsRequest(GetOperationsRequest),
    /// Tag 1.
    GetOperationsResponse(GetOperationsResponse<Op>),
    /// Tag 2.
    GetSyncTargetRequest(GetSyncTargetRequest),
    /// Tag 3.
    GetSyncTargetResponse(GetSyncTargetResponse),
    /// Tag 4.
    GetCompactTargetRequest(GetCompactTargetRequest),
    /// Tag 5.
    GetCompactTargetResponse(GetCompactTargetResponse),
    /// Tag 6.
    GetCompactStateRequest(GetCompactStateRequest),
    /// Tag 7.
    GetCompactStateResponse(GetCompactStateResponse<Op>),
    /// Tag 8.
    Error(ErrorResponse),
}

impl<Op> Message<Op> {
    /// The number of the request that is made or answered.
    pub fn request_id(&self) -> u64
        ensures { result ≡ number_of self.now }
    {
        match self {
            Message::GetOperationsRequest(m) => m.request_id,
            Message::GetOperationsResponse(m) => m.request_id,
            Message::GetSyncTargetRequest(m) => m.request_id,
            Message::GetSyncTargetResponse(m) => m.request_id,
            Message::GetCompactTargetRequest(m) => m.request_id,
            Message::GetCompactTargetResponse(m) => m.request_id,
            Message::GetCompactStateRequest(m) => m.request_id,
            Message::GetCompactStateResponse(m) => m.request_id,
            Message::Error(m) => m.request_id,
        }
    }
}

/// Appends a tag and the fields behind it.
fn spell_tagged<T: Spell>(tag: u8, fields: &T, out: &mut Writer) -> Result<(), OutOfMemory>
    requires { T.fits fields.now }
    ensures ok { OnOk result (out.new ≡ out.old ++ tag ∷ T.written fields.now) }
    ensures err { OnErr result (Grows out.old out.new) }
{
    out.write_u8(tag)?;
    fields.spell(out)
}

impl<Op: Spell> Spell for Message<Op> {
    ghost use Rattle.sync_net.specs.Messages.{message_at, message_written, IsSoundMessage, MessageFits};
    ghost use Rattle.sync_net.specs.Laws.{message_laws};

    ghost reading = { message_at Op.reading };

    ghost written = { message_written Op.written };

    ghost sound = { IsSoundMessage Op.sound };

    ghost fits = { MessageFits Op.fits };

    ghost laws = { message_laws Op.reading Op.written Op.sound Op.fits Op.laws };

    fn size(&self) -> usize {
        let tag: usize = 1;
        match self {
            Message::GetOperationsRequest(m) => tag.saturating_add(m.size()),
            Message::GetOperationsResponse(m) => tag.saturating_add(m.size()),
            Message::GetSyncTargetRequest(m) => tag.saturating_add(m.size()),
            Message::GetSyncTargetResponse(m) => tag.saturating_add(m.size()),
            Message::GetCompactTargetRequest(m) => tag.saturating_add(m.size()),
            Message::GetCompactTargetResponse(m) => tag.saturating_add(m.size()),
            Message::GetCompactStateRequest(m) => tag.saturating_add(m.size()),
            Message::GetCompactStateResponse(m) => tag.saturating_add(m.size()),
            Message::Error(m) => tag.saturating_add(m.size()),
        }
    }

    fn spell(&self, out: &mut Writer) -> Result<(), OutOfMemory> {
        match self {
            Message::GetOperationsRequest(m) => spell_tagged(0, m, out),
            Message::GetOperationsResponse(m) => spell_tagged(1, m, out),
            Message::GetSyncTargetRequest(m) => spell_tagged(2, m, out),
            Message::GetSyncTargetResponse(m) => spell_tagged(3, m, out),
            Message::GetCompactTargetRequest(m) => spell_tagged(4, m, out),
            Message::GetCompactTargetResponse(m) => spell_tagged(5, m, out),
            Message::GetCompactStateRequest(m) => spell_tagged(6, m, out),
            Message::GetCompactStateResponse(m) => spell_tagged(7, m, out),
            Message::Error(m) => spell_tagged(8, m, out),
        }
    }

    #[tactic(auto, unfolding(crate::specs::Messages::message_at))]
    fn read(alloc: Global, from: &mut Reader<'_>) -> Result<Message<Op>, CodecError> {
        let mut at = from.fork();
        let tag = at.read_u8()?;
        let message = match tag {
            0 => Message::GetOperationsRequest(GetOperationsRequest::read(alloc, &mut at)?),
            1 => Message::GetOperationsResponse(GetOperationsResponse::<Op>::read(alloc, &mut at)?),
            2 => Message::GetSyncTargetRequest(GetSyncTargetRequest::read(alloc, &mut at)?),
            3 => Message::GetSyncTargetResponse(GetSyncTargetResponse::read(alloc, &mut at)?),
            4 => Message::GetCompactTargetRequest(GetCompactTargetRequest::read(alloc, &mut at)?),
            5 => Message::GetCompactTargetResponse(GetCompactTargetResponse::read(alloc, &mut at)?),
            6 => Message::GetCompactStateRequest(GetCompactStateRequest::read(alloc, &mut at)?),
            7 => Message::GetCompactStateResponse(GetCompactStateResponse::<Op>::read(
                alloc, &mut at,
            )?),
            8 => Message::Error(ErrorResponse::read(alloc, &mut at)?),
            _ => return Err(CodecError::InvalidEnum { tag }),
        };
        *from = at;
        Ok(message)
    }
}
