//! Laws of caches and routers: the contract of each function is the law, and its body does nothing.
ghost use Rattle.rtr_cache.specs.Laws.{EachPduHasOneReply, EachReplyIsTaken, RoutersFollowTheTable, RoutersGetTheTable};

/// Each PDU has exactly one reply, and one turn behind it.
pub fn each_pdu_has_one_reply()
    ensures { EachPduHasOneReply }
{}

/// Whatever a router asked, it takes the units of the reply.
pub fn each_reply_is_taken()
    ensures { EachReplyIsTaken }
{}

/// A router that asks, either for the first time or holding a version of the session, holds exactly the current table once it took the
/// reply; after a Cache Reset once it took the reply to its second query too.
pub fn routers_get_the_table()
    ensures { RoutersGetTheTable }
{}

/// Whatever updates and queries came before, and however often the router started anew, it holds exactly the current table then.
pub fn routers_follow_the_table()
    ensures { RoutersFollowTheTable }
{}
