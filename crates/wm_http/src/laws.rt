// Laws of what is cut. They are no calls.
ghost use Rattle.wm_http.specs.Laws.{FinalCutStays, RequestIsOne};

/// In whatever pieces the bytes of a connection come, the same requests are cut from them: an answer other than to read on
/// stays with any bytes behind, and bytes that have a request have no other answer.
#[tactic(auto, using(crate::proofs::StayLemmas::final_cut_stays, crate::proofs::SameLemmas::request_is_one))]
pub fn pieces_give_the_same_requests()
    ensures stays { FinalCutStays }
    ensures one { RequestIsOne }
{}
