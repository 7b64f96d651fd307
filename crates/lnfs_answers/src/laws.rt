//! Laws of what a record is to a request, in the words of the formats.
ghost use Rattle.std.specs.Prelude.{◌≡◌, ◌↔◌, ◌⊎◌, ℕ};
ghost use Rattle.lnfs_xdr.specs.Message.{RefusesAt};
ghost use Rattle.lnfs_gss3.specs.Mechanism.{Signing};
ghost use Rattle.lnfs_answers.specs.declared.request.Heard.{Heard};
ghost use Rattle.lnfs_answers.specs.declared.request.Heard.TheVariants.{Bad, Denied, Other};
ghost use Rattle.lnfs_answers.specs.Replies.{Asked, heard, inner, reply};
ghost use Rattle.lnfs_answers.specs.Hearing.{IsAnswered, IsDenied, IsFaultWithin, IsOther, IsResult, IsWrongInside, WantsFit};

/// A record is heard as an answer exactly where it is that answer: with the request's transaction,
/// a verifier that is good, and what was asked, plain or signed. It is heard as a denial, or as
/// another's, exactly where it is that; and it is bad exactly where the items before the offset are
/// there and none is there, or that is so inside what is signed.
pub fn records(message: &[u8])
    ensures answered { (m : Signing) (a : Asked) (h : Heard) → WantsFit a.wants → IsResult h →
        (heard m a message.now ≡ h) ↔ IsAnswered m a h message.now }
    ensures denied { (m : Signing) (a : Asked) (stat : ℕ) →
        (heard m a message.now ≡ Denied stat) ↔ IsDenied a stat message.now }
    ensures other { (m : Signing) (a : Asked) →
        (heard m a message.now ≡ Other) ↔ IsOther a message.now }
    ensures bad { (m : Signing) (a : Asked) (at : ℕ) → (heard m a message.now ≡ Bad at) ↔
        (RefusesAt (reply m a) message.now at ⊎ IsWrongInside m a at message.now) }
    // What is wrong inside is told by where it stands in the record.
    ensures inside { (m : Signing) (a : Asked) (at : ℕ) → IsWrongInside m a at message.now →
        IsFaultWithin (inner a.xid a.wants) message.now at }
{}
