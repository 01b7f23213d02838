//! What holds of all lists of words.

ghost use Rattle.d_words.specs.Law.{HasOneRequest, HasOneShow, HasRequestOrNone, HasShowOrNone, IsShowAlone};

/// A list of words is exactly one request, or none.
pub fn names_one_request()
    ensures one { HasOneRequest }
    ensures decided { HasRequestOrNone }
{}

/// A list of words asks to see exactly one tariff, or none; and where it asks to see one, it is no request.
pub fn names_one_show()
    ensures one { HasOneShow }
    ensures decided { HasShowOrNone }
    ensures alone { IsShowAlone }
{}
