//! Short texts that are compared: laws that are computed.
ghost use Rattle.text_rows.specs.Lists.{OrdersTexts, TellsSameTexts};

/// As in a dictionary.
pub fn orders_texts()
    ensures { OrdersTexts }
{}

/// Which texts are the same.
pub fn tells_same_texts()
    ensures { TellsSameTexts }
{}
