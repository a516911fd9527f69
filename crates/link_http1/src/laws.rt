// Laws of messages as bytes: a head and its end are read in one way, and an open body is short.
ghost use Rattle.link_http1.specs.BodyLaws.{OpenBodiesAreShort};
ghost use Rattle.link_http1.specs.HeadLaws.{HasOneEnd, HasOneHead, HeadsAreBlocks};
ghost use Rattle.link_http1.specs.RequestHeads.{HasOneReading, NoneBeforeBlock, ReadingStays, RequestsAreBlocks};

/// A head is a block, and no beginning of it is one.
pub fn law_heads_are_blocks()
    ensures { HeadsAreBlocks }
{}

/// The bytes of an answer have one final head at most, and one place where it ends.
pub fn law_one_head()
    ensures { HasOneHead }
{}

/// The head of an answer comes to one thing: a final head and its end, no head, or too long a one.
pub fn law_one_end()
    ensures { HasOneEnd }
{}

/// Bytes that leave a body open are so many at most, by its framing and its limit.
pub fn law_open_bodies_are_short()
    ensures { OpenBodiesAreShort }
{}

/// Of bytes one request head is read at most, and what follows a head changes nothing.
pub fn law_one_request()
    ensures one { HasOneReading }
    ensures stays { ReadingStays }
{}

/// The head of a request is a block, no beginning of it is one, and so bytes in which no block ends
/// have none.
pub fn law_requests_are_blocks()
    ensures blocks { RequestsAreBlocks }
    ensures before { NoneBeforeBlock }
{}
