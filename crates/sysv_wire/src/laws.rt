//! Laws about the definitions.
ghost use Rattle.std.specs.Prelude.{◌≡◌};
ghost use Rattle.sysv_wire.specs.declared.frame.TheConstants.{LENGTH_BYTES, MAX_MODE, MAX_REPLY, MAX_REQUEST, MIN_REPLY, MIN_REQUEST};
ghost use Rattle.sysv_wire.specs.Arrived.{FrameAlone, FrameStays, FrameTaken, OneFrame};
ghost use Rattle.sysv_wire.specs.OneAnswer.{OneAnswerToReplies, OneAnswerToRequests};
ghost use Rattle.sysv_wire.specs.OneEncoding.{OneRequest, OneReply};
ghost use Rattle.sysv_wire.specs.declared.frame.Version.{Version};

/// States the number of bytes in the length field of a frame, the limits of its length, and the
/// maximum mode.
pub fn numerals_of_frames()
    ensures length { LENGTH_BYTES ≡ 4 }
    ensures shortest_request { MIN_REQUEST ≡ 2 }
    ensures longest_request { MAX_REQUEST ≡ 8274 }
    ensures shortest_reply { MIN_REPLY ≡ 3 }
    ensures longest_reply { MAX_REPLY ≡ 8203 }
    ensures mode { MAX_MODE ≡ 0o777 }
{}

/// States that each encoding of a request is that of one request, and that none is a prefix of
/// another request's encoding.
pub fn one_request()
    ensures { OneRequest }
{}

/// States that each encoding of a reply is that of one reply, and that none is a prefix of another
/// reply's encoding.
pub fn one_reply()
    ensures { OneReply }
{}

/// States that at most one result of reading a request fits an input. So if the reader does not
/// fail, the result is the one that fits.
pub fn one_answer_to_requests()
    ensures { (newest : Version) → OneAnswerToRequests newest }
{}

/// States that at most one result of reading a reply fits an input.
pub fn one_answer_to_replies()
    ensures { (newest : Version) → OneAnswerToReplies newest }
{}

/// States that at most one result of `frame_in_up_to` fits the same bytes: `Whole` if a request's
/// frame begins them, `Refused` if they alone cause a fault, and otherwise `More`.
pub fn one_frame()
    ensures { (newest : Version) → OneFrame newest }
{}

/// States that the result of `frame_in_up_to` stays the same if bytes follow: `More` until `least`
/// bytes have arrived, and `Whole` and `Refused` always.
pub fn frame_stays()
    ensures { (newest : Version) → FrameStays newest }
{}

/// States that a whole frame is still whole without the bytes after it.
pub fn frame_is_alone()
    ensures { (newest : Version) → FrameAlone newest }
{}

/// States that reading a request from bytes that begin with a whole frame takes this frame and no
/// byte after it, unless the reader fails.
pub fn frame_is_taken()
    ensures { (newest : Version) → FrameTaken newest }
{}
