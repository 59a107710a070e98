//! The namespaces that documents and schemas use.

/// The namespace of the prefix `xml` (Namespaces in XML 1.0, section 3).
pub const XML_SPACE: &str = "http://www.w3.org/XML/1998/namespace";

/// The namespace of the prefix `xmlns`, in which no name is (Namespaces in XML 1.0, section 3).
pub const XMLNS_SPACE: &str = "http://www.w3.org/2000/xmlns/";

/// The namespace of `xsi:nil` and the other attributes of XML Schema in documents (XML Schema Part 1, section 2.6).
pub const XSI_SPACE: &str = "http://www.w3.org/2001/XMLSchema-instance";

/// The namespace of schema documents (XML Schema Part 1, section 2.6).
pub const SCHEMA_SPACE: &str = "http://www.w3.org/2001/XMLSchema";
