//! Reading and printing agree.
ghost use Rattle.call_text.specs.Agreement.{EachCallHasWords, EachHasWords, KeyedIsCalled, PrintedIsRead};

/// What is printed for a value is read as that value, and each change and each question has words
/// that are read as it. So has each call of all, and the words of a call of a key are read as that
/// call.
pub fn words_agree()
    ensures printed { PrintedIsRead }
    ensures calls { EachHasWords }
    ensures all { EachCallHasWords }
    ensures keyed { KeyedIsCalled }
{}
