// One message of a listing.
use mail_model::plain::Id;
use std::marker::Model;

/// One message of a listing.
#[derive(Clone, Copy, Debug)]
pub struct Item {
    /// Its id.
    pub id: Id,
    /// How many octets it has as it is stored.
    pub size: usize,
}

impl Model for Item {
    ghost use Rattle.mail_model.specs.PopReplies as replies;

    ghost Value = { replies.Item };

    ghost view = { λ i. record { id = i.id; size = i.size } };

    ghost inverse = { λ i. record { id = i.id; size = i.size } };
}
